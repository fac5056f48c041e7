// Minutes at the edges, and rows that make no guard.
use guards::algebra::Algebra;
use guards::malformed::Malformed;
use guards::minutes::{MINUTES, MinuteEntry, MinuteRange, MinuteRow, NO_MINUTES};

const fn row(first: u16, last: u16) -> MinuteRow {
    MinuteRow { first, last }
}

#[test]
fn entries(rt: HostRuntime) {
    for (number, wanted) in [
        (0, Ok(0)),
        (1439, Ok(1439)),
        (1440, Err(Malformed::Minutes)),
        (65535, Err(Malformed::Minutes)),
    ] {
        let made = MinuteEntry::try_from(number).map(u16::from);
        assert_eq!(rt; made, wanted);
    }
}

// The rows that make a guard are written as they were read.
#[test]
fn guards(rt: HostRuntime) {
    for (first, last, is_guard) in [
        (0, 0, true),
        (0, 1439, true),
        (1439, 1439, true),
        (1, 0, false),
        (700, 600, false),
        (0, 1440, false),
        (1440, 1440, false),
        (65535, 65535, false),
    ] {
        let wanted = if is_guard {
            Ok(row(first, last))
        } else {
            Err(Malformed::Minutes)
        };
        let made = MinuteRange::try_from(row(first, last)).map(MinuteRow::from);
        assert_eq!(rt; made, wanted);
    }
    assert_eq!(rt; MinuteRow::from(None), NO_MINUTES);
}

#[test]
fn admission(rt: HostRuntime) {
    for (guard, minute, wanted) in [
        (row(0, 1439), 0, true),
        (row(0, 1439), 1439, true),
        (row(0, 1439), 1440, false),
        (row(600, 700), 599, false),
        (row(600, 700), 600, true),
        (row(600, 700), 700, true),
        (row(600, 700), 701, false),
        (NO_MINUTES, 0, false),
        (row(0, 2000), 5, false),
    ] {
        assert_eq!(rt; MINUTES.admits(guard, minute), wanted);
    }
}

#[test]
fn meets_and_samples(rt: HostRuntime) {
    for (a, b, met, sample) in [
        (row(0, 600), row(600, 700), row(600, 600), Some(600)),
        (row(0, 599), row(600, 700), NO_MINUTES, None),
        (row(0, 1439), row(3, 1440), NO_MINUTES, None),
        (row(10, 20), row(0, 1439), row(10, 20), Some(10)),
    ] {
        assert_eq!(rt; MINUTES.meet(a, b), met);
        assert_eq!(rt; MINUTES.sample(met), sample);
    }
}

#[test]
fn rests(rt: HostRuntime) {
    let whole = MINUTES.whole();
    for (a, b, parts) in [
        (
            whole,
            row(600, 700),
            [Some(row(0, 599)), Some(row(701, 1439)), None],
        ),
        (row(0, 100), row(50, 200), [Some(row(0, 49)), None, None]),
        (row(50, 200), row(0, 100), [Some(row(101, 200)), None, None]),
        (row(600, 700), whole, [None, None, None]),
        (
            row(300, 400),
            row(100, 200),
            [Some(row(300, 400)), None, None],
        ),
        (whole, NO_MINUTES, [Some(whole), None, None]),
        (NO_MINUTES, whole, [None, None, None]),
        (row(0, 1440), whole, [None, None, None]),
    ] {
        for (number, part) in parts.iter().enumerate() {
            assert_eq!(rt; MINUTES.rest(a, b, number), *part);
        }
        assert_eq!(rt; MINUTES.rest(a, b, usize::MAX), None);
    }
}
