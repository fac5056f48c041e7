// Order records on examples; each test is a table of cases.
use automata::joins::JoinBy;
use automata::moves::Move;
use automata::refusals::Refusal;
use guards::flags::FlagRow;
use guards::malformed::Malformed;
use guards::minutes::MinuteRow;
use guards::pair::Both;
use orders::order::Order;
use orders::records::{RECORD_BYTES, read};
use std::process::Abort;

// A record with the letter and zeros.
fn blank_record(letter: u8) -> [u8; RECORD_BYTES] {
    [letter, 0, 0, 0, 0, 0, 0, 0, 0, 0]
}

// A write from state 0 to state 1.
fn write(care: u8, value: u8, first: u16, last: u16) -> Order {
    Order::Write(Move {
        from: 0,
        guard: Both {
            first: FlagRow { care, value },
            second: MinuteRow { first, last },
        },
        to: 1,
    })
}

// The record of such a write.
fn write_record(care: u8, value: u8, first: u16, last: u16) -> [u8; RECORD_BYTES] {
    let [a, b] = first.to_be_bytes();
    let [c, d] = last.to_be_bytes();
    [b'M', 0, 1, care, value, 0, a, b, c, d]
}

#[test]
fn known_letters(rt: HostRuntime) {
    let known = [
        (b'O', Order::Open),
        (b'S', Order::Add),
        (b'E', Order::Mark(0)),
        (b'C', Order::Check),
        (b'B', Order::Join(JoinBy::Both)),
        (b'I', Order::Join(JoinBy::Either)),
        (b'X', Order::Join(JoinBy::Except)),
        (b'T', Order::Turn),
        (b'K', Order::Discard),
    ];
    for (letter, order) in known {
        assert_eq!(rt; read(&blank_record(letter)), Ok(order));
    }
}

#[test]
fn all_letters(rt: HostRuntime) {
    for letter in 0..=255u8 {
        let is_known = b"OSEMCBIXTK".contains(&letter);
        assert_eq!(rt;
            Order::try_from(blank_record(letter).as_slice()).is_ok(),
            is_known
        );
    }
}

// A byte may be set just where the letter uses it.
fn sets_one_byte(rt: &impl Abort, letter: u8, used: &[usize], set: u8) {
    for place in 1..RECORD_BYTES {
        let mut bytes = blank_record(letter);
        bytes[place] = set;
        assert_eq!(rt;
            Order::try_from(bytes.as_slice()).is_ok(),
            used.contains(&place)
        );
    }
}

#[test]
fn every_unused_byte(rt: HostRuntime) {
    for letter in *b"OSEMCBIXTK" {
        let used: &[usize] = match letter {
            b'E' => &[1],
            b'M' => &[1, 2, 3, 4, 6, 7, 8, 9],
            _ => &[],
        };
        sets_one_byte(&rt, letter, used, 1);
        sets_one_byte(&rt, letter, used, 255);
    }
}

// Only ten bytes are a record, whatever the letter uses.
fn cuts_to_length(rt: &impl Abort, letter: u8, length: usize) {
    let mut bytes = [0; 20];
    bytes[0] = letter;
    assert!(rt; length <= 20);
    assert_eq!(rt;
        Order::try_from(&bytes[..length]).is_ok(),
        length == RECORD_BYTES
    );
}

#[test]
fn every_length(rt: HostRuntime) {
    for length in [0, 1, 9, 10, 11, 20] {
        cuts_to_length(&rt, b'O', length);
        cuts_to_length(&rt, b'E', length);
        cuts_to_length(&rt, b'M', length);
    }
}

#[test]
fn every_used_byte(rt: HostRuntime) {
    assert_eq!(rt;
        Order::try_from([b'E', 255, 0, 0, 0, 0, 0, 0, 0, 0].as_slice()),
        Ok(Order::Mark(255))
    );
    // The place that is 255, and the order's numbers: from, to, care, value, first, last.
    let cases: [(usize, usize, usize, u8, u8, u16, u16); 9] = [
        (0, 0, 0, 0, 0, 0, 0),
        (1, 255, 0, 0, 0, 0, 0),
        (2, 0, 255, 0, 0, 0, 0),
        (3, 0, 0, 255, 0, 0, 0),
        (4, 0, 0, 0, 255, 0, 0),
        (6, 0, 0, 0, 0, 65280, 0),
        (7, 0, 0, 0, 0, 255, 0),
        (8, 0, 0, 0, 0, 0, 65280),
        (9, 0, 0, 0, 0, 0, 255),
    ];
    for (place, from, to, care, value, first, last) in cases {
        let mut bytes = [0u8; RECORD_BYTES];
        bytes[place] = 255;
        bytes[0] = b'M';
        let guard = Both {
            first: FlagRow { care, value },
            second: MinuteRow { first, last },
        };
        assert_eq!(rt;
            Order::try_from(bytes.as_slice()),
            Ok(Order::Write(Move { from, guard, to }))
        );
    }
}

#[test]
fn numbers_at_the_edges(rt: HostRuntime) {
    let cases: [(u8, u8, u16, u16, Option<Malformed>); 16] = [
        (0, 0, 0, 0, None),
        (31, 31, 0, 1439, None),
        (31, 0, 1439, 1439, None),
        (3, 3, 600, 600, None),
        (32, 0, 0, 1439, Some(Malformed::Flags)),
        (255, 255, 0, 1439, Some(Malformed::Flags)),
        (31, 32, 0, 1439, Some(Malformed::Flags)),
        (3, 4, 0, 1439, Some(Malformed::Flags)),
        (0, 1, 0, 1439, Some(Malformed::Flags)),
        (31, 31, 0, 1440, Some(Malformed::Minutes)),
        (31, 31, 1440, 1440, Some(Malformed::Minutes)),
        (0, 0, 700, 600, Some(Malformed::Minutes)),
        (0, 0, 1, 0, Some(Malformed::Minutes)),
        (0, 0, 0, 65535, Some(Malformed::Minutes)),
        (32, 0, 0, 1440, Some(Malformed::Flags)),
        (3, 4, 700, 600, Some(Malformed::Flags)),
    ];
    for (care, value, first, last, fault) in cases {
        let mut bytes = write_record(care, value, first, last);
        let wanted = match fault {
            None => Ok(write(care, value, first, last)),
            Some(why) => Err(Refusal::BadNumbers(why)),
        };
        assert_eq!(rt; read(&bytes), wanted);
        // An unused byte comes before the numbers.
        bytes[5] = 1;
        assert_eq!(rt; read(&bytes), Err(Refusal::OutOfPlace));
    }
}
