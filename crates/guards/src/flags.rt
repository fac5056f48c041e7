// Flags: the five bits of an activity, and guards that fix some of them.
ghost use Rattle.std.specs.Prelude.{◌≡◌, ◌≤◌, bit_and};

use crate::rows::Rows;
use std::marker::PhantomData;

mod algebra;
mod conversions;
mod printing;

// The largest number of five bits.
pub const LAST_FLAGS: u8 = 31;

// The bits of the slot, the crew and the card; the two below them are the activity.
pub const SLOT: u8 = 16;

pub const CREW: u8 = 8;

pub const CARD: u8 = 4;

// What a driver does, by the two lowest bits of an entry.
#[derive(Clone, Copy, PartialEq, Eq, Debug)]
pub enum Activity {
    Rest = 0,
    Availability = 1,
    Work = 2,
    Driving = 3,
}

// All five bits by weight, highest first.
pub const WEIGHTS: [u8; 5] = [SLOT, CREW, CARD, 2, 1];

// A guard on flags as it lies in a table: any two numbers. Numbers that make no guard read as the empty guard.
#[derive(Clone, Copy, PartialEq, Eq, Debug)]
pub struct FlagRow {
    pub care: u8,
    pub value: u8,
}

// The row that the empty guard is written as.
pub const NO_FLAGS: FlagRow = FlagRow { care: 0, value: 1 };

// The bits of `care`, and what they must be: the value has no bit outside care.
#[derive(Clone, Copy)]
pub struct FlagPattern {
    care: u8,
    value: u8,
    ghost small: { care ≤ 31 },
    ghost within: { bit_and value care ≡ value },
}

// A guard on flags: None is the empty guard.
pub type FlagGuard = Option<FlagPattern>;

// An entry of the flags algebra. Minutes have a type of this shape: one over both numbers can derive no `Clone` and has no `From` back.
#[derive(Clone, Copy)]
pub struct FlagEntry {
    number: u8,
    ghost small: { number ≤ 31 },
}

// The algebra of flags, over plain rows and plain numbers.
pub type Flags = Rows<FlagPattern>;

pub const FLAGS: Flags = Rows { of: PhantomData };
