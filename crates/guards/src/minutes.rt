// Minutes: the minutes of a day, and guards that are ranges of them.
ghost use Rattle.std.specs.Prelude.{◌≤◌};

use crate::rows::Rows;
use std::marker::PhantomData;

mod algebra;
mod conversions;
mod printing;

// The last minute of a day.
pub const LAST_MINUTE: u16 = 1439;

// A guard on minutes as it lies in a table: any two numbers. Numbers that make no guard read as the empty guard.
#[derive(Clone, Copy, PartialEq, Eq, Debug)]
pub struct MinuteRow {
    pub first: u16,
    pub last: u16,
}

// The row that the empty guard is written as.
pub const NO_MINUTES: MinuteRow = MinuteRow { first: 1, last: 0 };

// The minutes from `first` to `last`, of which there is at least one.
#[derive(Clone, Copy)]
pub struct MinuteRange {
    first: u16,
    last: u16,
    ghost ordered: { first ≤ last },
    ghost small: { last ≤ 1439 },
}

// A guard on minutes: None is the empty guard.
pub type MinuteGuard = Option<MinuteRange>;

// An entry of the minutes algebra. Flags have a type of this shape: one over both numbers can derive no `Clone` and has no `From` back.
#[derive(Clone, Copy)]
pub struct MinuteEntry {
    number: u16,
    ghost small: { number ≤ 1439 },
}

// The algebra of minutes, over plain rows and plain numbers.
pub type Minutes = Rows<MinuteRange>;

pub const MINUTES: Minutes = Rows { of: PhantomData };
