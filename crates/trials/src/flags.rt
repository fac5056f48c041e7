// Flags at the edges, and rows that make no guard.
use guards::algebra::Algebra;
use guards::flags::{FLAGS, FlagEntry, FlagPattern, FlagRow, NO_FLAGS};
use guards::malformed::Malformed;

const fn row(care: u8, value: u8) -> FlagRow {
    FlagRow { care, value }
}

#[test]
fn entries(rt: HostRuntime) {
    for (number, wanted) in [
        (0, Ok(0)),
        (31, Ok(31)),
        (32, Err(Malformed::Flags)),
        (255, Err(Malformed::Flags)),
    ] {
        let made = FlagEntry::try_from(number).map(u8::from);
        assert_eq!(rt; made, wanted);
    }
}

// The rows that make a guard are written as they were read.
#[test]
fn guards(rt: HostRuntime) {
    for (care, value, is_guard) in [
        (0, 0, true),
        (31, 31, true),
        (31, 0, true),
        (3, 1, true),
        (0, 1, false),
        (2, 1, false),
        (32, 0, false),
        (31, 32, false),
        (255, 255, false),
    ] {
        let wanted = if is_guard {
            Ok(row(care, value))
        } else {
            Err(Malformed::Flags)
        };
        let made = FlagPattern::try_from(row(care, value)).map(FlagRow::from);
        assert_eq!(rt; made, wanted);
    }
    assert_eq!(rt; FlagRow::from(None), NO_FLAGS);
}

#[test]
fn admission(rt: HostRuntime) {
    for (guard, flags, wanted) in [
        (row(0, 0), 0, true),
        (row(0, 0), 31, true),
        (row(0, 0), 32, false),
        (row(3, 3), 19, true),
        (row(3, 3), 18, false),
        (row(31, 31), 31, true),
        (row(31, 31), 63, false),
        (NO_FLAGS, 1, false),
        (row(32, 0), 0, false),
    ] {
        assert_eq!(rt; FLAGS.admits(guard, flags), wanted);
    }
}

#[test]
fn meets_and_samples(rt: HostRuntime) {
    for (a, b, met, sample) in [
        (row(2, 2), row(3, 1), NO_FLAGS, None),
        (row(2, 2), row(17, 1), row(19, 3), Some(3)),
        (row(0, 0), row(31, 7), row(31, 7), Some(7)),
        (row(0, 1), row(0, 0), NO_FLAGS, None),
        (row(0, 0), row(200, 0), NO_FLAGS, None),
    ] {
        assert_eq!(rt; FLAGS.meet(a, b), met);
        assert_eq!(rt; FLAGS.sample(met), sample);
    }
}

#[test]
fn rests(rt: HostRuntime) {
    let whole = FLAGS.whole();
    for (a, b, parts) in [
        (whole, row(3, 3), [Some(row(2, 0)), Some(row(3, 2)), None]),
        (
            row(16, 16),
            row(19, 17),
            [Some(row(18, 18)), Some(row(19, 16)), None],
        ),
        (row(3, 3), row(3, 3), [None, None, None]),
        (row(2, 2), row(3, 1), [Some(row(2, 2)), None, None]),
        (whole, NO_FLAGS, [Some(whole), None, None]),
        (NO_FLAGS, whole, [None, None, None]),
        (row(64, 0), row(3, 3), [None, None, None]),
    ] {
        for (number, part) in parts.iter().enumerate() {
            assert_eq!(rt; FLAGS.rest(a, b, number), *part);
        }
        assert_eq!(rt; FLAGS.rest(a, b, usize::MAX), None);
    }
}
