// Pairs of algebras, pairs in pairs, and activity change words.
use guards::activity::{ACTIVITY, ActivityEntry, ActivityGuard, ChangeWord};
use guards::algebra::Algebra;
use guards::cases::worked_cases;
use guards::flags::{Activity, FLAGS, FlagRow, NO_FLAGS};
use guards::malformed::Malformed;
use guards::minutes::{MINUTES, MinuteRow, NO_MINUTES};
use guards::pair::{Both, Pair};

const DRIVING: FlagRow = FlagRow {
    care: 3,
    value: Activity::Driving as u8,
};

const ANY_FLAGS: FlagRow = FlagRow { care: 0, value: 0 };

const DAY: MinuteRow = MinuteRow {
    first: 0,
    last: 1439,
};

const EARLY: MinuteRow = MinuteRow { first: 0, last: 9 };

const LATER: MinuteRow = MinuteRow {
    first: 10,
    last: 1439,
};

const fn both(first: FlagRow, second: MinuteRow) -> ActivityGuard {
    Both { first, second }
}

#[test]
fn rests(rt: HostRuntime) {
    let resting = FlagRow { care: 2, value: 0 };
    let working = FlagRow {
        care: 3,
        value: Activity::Work as u8,
    };
    let whole = ACTIVITY.whole();
    for (a, b, parts) in [
        (
            whole,
            both(DRIVING, DAY),
            [
                Some(both(resting, DAY)),
                Some(both(working, DAY)),
                None,
                None,
            ],
        ),
        (
            whole,
            both(DRIVING, EARLY),
            [
                Some(both(resting, DAY)),
                Some(both(working, DAY)),
                Some(both(DRIVING, LATER)),
                None,
            ],
        ),
        (
            whole,
            both(DRIVING, NO_MINUTES),
            [
                Some(both(resting, DAY)),
                Some(both(working, DAY)),
                Some(both(DRIVING, DAY)),
                None,
            ],
        ),
        (
            whole,
            both(NO_FLAGS, EARLY),
            [Some(whole), None, None, None],
        ),
        (both(NO_FLAGS, DAY), whole, [None, None, None, None]),
        (both(DRIVING, NO_MINUTES), whole, [None, None, None, None]),
    ] {
        for (number, part) in parts.iter().enumerate() {
            assert_eq!(rt; ACTIVITY.rest(a, b, number), *part);
        }
        assert_eq!(rt; ACTIVITY.rest(a, b, usize::MAX), None);
    }
}

#[test]
fn meets_samples_and_admission(rt: HostRuntime) {
    let met = ACTIVITY.meet(both(DRIVING, DAY), both(ANY_FLAGS, LATER));
    assert_eq!(rt; met, both(DRIVING, LATER));
    let sample = Both {
        first: 3,
        second: 10,
    };
    assert_eq!(rt; ACTIVITY.sample(met), Some(sample));
    assert!(rt; ACTIVITY.admits(met, sample));
    assert!(rt; !ACTIVITY.admits(both(DRIVING, EARLY), sample));
    assert_eq!(rt; ACTIVITY.sample(both(DRIVING, NO_MINUTES)), None);
    assert_eq!(rt; ACTIVITY.sample(both(NO_FLAGS, DAY)), None);
}

// A pair beside a third algebra is an algebra too.
#[test]
fn nested(rt: HostRuntime) {
    let three = Pair {
        first: FLAGS,
        second: Pair {
            first: MINUTES,
            second: FLAGS,
        },
    };
    let whole = three.whole();
    let b = Both {
        first: ANY_FLAGS,
        second: Both {
            first: EARLY,
            second: DRIVING,
        },
    };
    let late = Both {
        first: ANY_FLAGS,
        second: Both {
            first: LATER,
            second: ANY_FLAGS,
        },
    };
    assert_eq!(rt; three.rest(whole, b, 0), Some(late));
    assert_eq!(rt; three.rest(whole, b, 3), None);
    assert_eq!(rt; three.rest(b, whole, 0), None);
    assert!(rt; three.sample(b).is_some());
}

#[test]
fn words(rt: HostRuntime) {
    for (word, wanted) in [
        (0, Ok((0, 0))),
        (0x1A58, Ok((3, 600))),
        (0xFD9F, Ok((31, 1439))),
        (0x05A0, Err(Malformed::Minutes)),
        (0xFFFF, Err(Malformed::Minutes)),
    ] {
        let made = ActivityEntry::try_from(ChangeWord(word)).map(|entry| (
            entry.first,
            entry.second,
        ));
        assert_eq!(rt; made, wanted);
    }
    assert_eq!(rt; worked_cases(), 3);
}
