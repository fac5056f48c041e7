// Steps of records on examples: each letter with each hand that can be made, the limits, and what a refusal leaves.
use crate::sheets::{Seen, in_hand, plain, play, refused};
use automata::refusals::Refusal;
use guards::activity::ActivityEntry;
use guards::flags::FlagRow;
use guards::malformed::Malformed;
use guards::minutes::MinuteRow;
use std::process::Abort;
use std::test::Fail;

#[test]
fn every_letter_with_every_hand(rt: HostRuntime) -> Result<(), Fail> {
    // The letter, and whether it is accepted with nothing in hand and with an open clause.
    let cases = [
        (b'O', true, false),
        (b'S', false, true),
        (b'E', false, true),
        (b'M', false, true),
        (b'C', false, false),
        (b'B', false, false),
        (b'I', false, false),
        (b'X', false, false),
        (b'T', true, true),
        (b'K', false, true),
        (b'Z', false, false),
    ];
    for (letter, with_nothing, with_open) in cases {
        let opened = plain(b'O');
        fits(&rt, &play(&[]), &play(&[plain(letter)]), with_nothing)?;
        fits(
            &rt,
            &play(&[opened]),
            &play(&[opened, plain(letter)]),
            with_open,
        )?;
    }
    Ok(())
}

// A record is accepted, or refused as out of place.
fn fits(rt: &impl Abort, before: &Seen, after: &Seen, accepted: bool) -> Result<(), Fail> {
    if accepted {
        assert_eq!(rt; after.refusal, None);
        Ok(())
    } else {
        refused(rt, before, after, Refusal::OutOfPlace)
    }
}

#[test]
fn first_test_that_fails(rt: HostRuntime) -> Result<(), Fail> {
    // From, to, care, value, last minute, and the refusal with an open clause of one state.
    let cases: [(u8, u8, u8, u8, u8, Refusal<ActivityEntry>); 6] = [
        (1, 2, 32, 0, 159, Refusal::BadNumbers(Malformed::Flags)),
        (1, 2, 32, 0, 160, Refusal::BadNumbers(Malformed::Flags)),
        (1, 2, 31, 0, 160, Refusal::BadNumbers(Malformed::Minutes)),
        (1, 2, 31, 0, 159, Refusal::NoSuchState(1)),
        (0, 2, 31, 0, 159, Refusal::NoSuchState(2)),
        (255, 0, 31, 0, 159, Refusal::NoSuchState(255)),
    ];
    for (from, to, care, value, last, why) in cases {
        let record = [b'M', from, to, care, value, 0, 0, 0, 5, last];
        let opened = plain(b'O');
        refused(&rt, &play(&[]), &play(&[record]), Refusal::OutOfPlace)?;
        refused(&rt, &play(&[opened]), &play(&[opened, record]), why)?;
    }
    let mut marked = plain(b'E');
    marked[1] = 1;
    let opened = plain(b'O');
    refused(
        &rt,
        &play(&[opened]),
        &play(&[opened, marked]),
        Refusal::NoSuchState(1),
    )
}

#[test]
fn accepted_orders(rt: HostRuntime) {
    let records = [
        plain(b'O'),
        plain(b'S'),
        [b'E', 1, 0, 0, 0, 0, 0, 0, 0, 0],
        [b'M', 0, 1, 3, 3, 0, 0, 0, 5, 159],
        plain(b'T'),
        plain(b'K'),
    ];
    // How many of the records are played, what is in hand then, and whether state 0 is an ending of the rule.
    let cases = [
        (0, None, true),
        (1, Some((1, 0, false)), true),
        (2, Some((2, 0, false)), true),
        (3, Some((2, 0, true)), true),
        (4, Some((2, 1, true)), true),
        (5, Some((2, 1, true)), false),
        (6, None, false),
    ];
    for (count, hand, ends) in cases {
        assert!(rt; count <= 6);
        let seen = play(&records[..count]);
        assert_eq!(rt; seen.refusal, None);
        assert_eq!(rt; in_hand(&seen), hand);
        assert_eq!(rt; seen.rule.endings.contains(0), ends);
    }
    let written = play(&records[..4]).table[0];
    assert_eq!(rt; (written.from, written.to), (0, 1));
    assert_eq!(rt; written.guard.first, FlagRow { care: 3, value: 3 });
    assert_eq!(rt;
        written.guard.second,
        MinuteRow {
            first: 0,
            last: 1439,
        }
    );
}

#[test]
fn as_many_as_fit(rt: HostRuntime) -> Result<(), Fail> {
    let mut states = [plain(b'S'); 64];
    states[0] = plain(b'O');
    let full = play(&states[..63]);
    assert_eq!(rt; full.refusal, None);
    refused(&rt, &full, &play(&states), Refusal::TooManyStates)?;
    let mut moves = [plain(b'M'); 1026];
    moves[0] = plain(b'O');
    let full = play(&moves[..1025]);
    assert_eq!(rt; full.refusal, None);
    refused(&rt, &full, &play(&moves), Refusal::TableFull)
}
