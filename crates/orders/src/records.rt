// Order records: ten bytes that ask for one order. Bytes that a letter does not use are zero, so an order has one record.
ghost use Rattle.std.specs.Prelude.{◌≡◌, Some, None, MatchResult};
ghost use Rattle.orders.specs.Records.{Decodes, asked, blank, decoded, fault, lettered, mark_asked, move_of, numbers_checked, plain_asked, plain_orders, then_checked, write_asked, Meaning};

use crate::order::Order;
use automata::joins::JoinBy;
use automata::moves::Move;
use automata::refusals::Refusal;
use guards::activity::{ActivityEntry, ActivityGuard};
use guards::flags::{FlagPattern, FlagRow};
use guards::malformed::Malformed;
use guards::minutes::{MinuteRange, MinuteRow};
use guards::pair::Both;

// The bytes of one record.
pub const RECORD_BYTES: usize = 10;

// The most records that one input has.
pub const INPUT_RECORDS: usize = 4_096;

// The most bytes that one input has.
pub const INPUT_BYTES: usize = INPUT_RECORDS * RECORD_BYTES;

// The order of a letter that says it all: no other byte is used.
fn lettered_order(letter: u8) -> Option<Order>
    ensures { result ≡ lettered letter plain_orders }
{
    match letter {
        b'O' => Some(Order::Open),
        b'S' => Some(Order::Add),
        b'C' => Some(Order::Check),
        b'B' => Some(Order::Join(JoinBy::Both)),
        b'I' => Some(Order::Join(JoinBy::Either)),
        b'X' => Some(Order::Join(JoinBy::Except)),
        b'T' => Some(Order::Turn),
        b'K' => Some(Order::Discard),
        _ => None,
    }
}

// The order of a record whose letter is M.
fn write_order(bytes: &[u8; RECORD_BYTES]) -> Option<Order>
    ensures { result ≡ write_asked bytes.now }
{
    let [
        _,
        from,
        to,
        care,
        value,
        unused,
        first_high,
        first_low,
        last_high,
        last_low,
    ] = *bytes;
    if unused != 0 {
        return None;
    }
    Some(Order::Write(Move {
        from: usize::from(from),
        guard: Both {
            first: FlagRow { care, value },
            second: MinuteRow {
                first: u16::from_be_bytes([first_high, first_low]),
                last: u16::from_be_bytes([last_high, last_low]),
            },
        },
        to: usize::from(to),
    }))
}

// Whether every byte is zero.
fn is_blank(bytes: &[u8]) -> bool
    ensures { result ≡ blank bytes.now }
{
    bytes.iter().all(|byte| *byte == 0)
}

// The order of a record whose letter is E.
fn mark_order(bytes: &[u8; RECORD_BYTES]) -> Option<Order>
    ensures { result ≡ mark_asked bytes.now }
{
    if is_blank(&bytes[2..]) {
        Some(Order::Mark(usize::from(bytes[1])))
    } else {
        None
    }
}

// The order of a record whose letter uses no other byte.
fn plain_order(bytes: &[u8; RECORD_BYTES]) -> Option<Order>
    ensures { result ≡ plain_asked bytes.now }
{
    if is_blank(&bytes[1..]) {
        lettered_order(bytes[0])
    } else {
        None
    }
}

// The order that the bytes ask for, if they ask for one.
fn asked_order(bytes: &[u8]) -> Option<Order>
    ensures { result ≡ asked bytes.now }
{
    let bytes: &[u8; RECORD_BYTES] = bytes.try_into().ok()?;
    match bytes[0] {
        b'M' => write_order(bytes),
        b'E' => mark_order(bytes),
        _ => plain_order(bytes),
    }
}

// The order that the bytes are the record of; any other bytes are out of place.
impl TryFrom<&[u8]> for Order {
    type Error = Refusal<ActivityEntry>;

    ghost try_from_gives = { λ bytes answer. Decodes bytes.now answer };

    fn try_from(bytes: &[u8]) -> Result<Order, Refusal<ActivityEntry>> {
        asked_order(bytes).ok_or(Refusal::OutOfPlace)
    }
}

// Refuses numbers that make no guard: the flags are looked at first.
fn test_numbers(guard: ActivityGuard) -> Result<(), Malformed>
    ensures { MatchResult result (λ _. fault guard ≡ None) (λ why. fault guard ≡ Some why) }
{
    FlagPattern::try_from(guard.first)?;
    MinuteRange::try_from(guard.second)?;
    Ok(())
}

// The order itself, unless it writes a move whose numbers make no guard.
pub fn checked(order: Order) -> Result<Order, Refusal<ActivityEntry>>
    ensures { result ≡ numbers_checked order }
{
    if let Order::Write(line) = order {
        test_numbers(line.guard)?;
    }
    Ok(order)
}

// The order that the bytes ask for, once its numbers are checked.
pub fn read(bytes: &[u8]) -> Result<Order, Refusal<ActivityEntry>>
    ensures { result ≡ then_checked (decoded bytes.now) }
{
    checked(Order::try_from(bytes)?)
}
