// Lists of limited length, kept at the front of a buffer that the caller lends.
ghost use Rattle.std.specs.Prelude.{◌≡◌, ◌≤◌, List, length, IfOk, Some, codes, ◌==◌};
ghost use Rattle.std.specs.Iterator.{AlwaysYields, IsFinite};
ghost use Rattle.automata.specs.declared.refusals.Refusal.TheVariants.{TooLarge};
ghost use Rattle.tables.specs.Lists.{Appends, Pushes, no_items};

use automata::refusals::Refusal;
use std::error::Error;
use std::fmt;
use std::marker::Model;

// A list has no room for another value.
#[derive(Clone, Copy, PartialEq, Eq, Debug)]
pub struct Full;

// Written here, since a derived text has no contract.
impl fmt::Display for Full {
    ghost output = { λ _. Some (codes "no room for another value") };

    fn fmt<W: fmt::Write>(&self, f: &mut fmt::Formatter<W>) -> fmt::Result {
        write!(f, "no room for another value")
    }
}

impl Error for Full {}

// Moves without room are too many.
impl<E> From<Full> for Refusal<E> {
    ghost from_gives = { λ _ why. why ≡ TooLarge };

    fn from(_full: Full) -> Refusal<E> {
        Refusal::TooLarge
    }
}

// A list at the front of a buffer, which its caller lends, so that a list allocates nothing. Clauses see its values and how many
// have room.
#[derive(Drop)]
pub struct SliceVec<'a, T> {
    buffer: &'a mut [T],
    len: usize,
}

impl<'a, T> Model for SliceVec<'a, T> {
    ghost use Rattle.std.specs.Prelude.{◌≤◌, take, length};
    ghost use Rattle.tables.specs.Lists.{Held};

    ghost Value = { Held T };

    ghost view = { λ s. record { items = take s.len s.buffer.now; room = length s.buffer.now } };

    ghost invariant = { λ s. s.len ≤ length s.buffer.now };
}

impl<'a, T: Copy> SliceVec<'a, T> {
    pub fn new(buffer: &'a mut [T]) -> SliceVec<'a, T>
        ensures { result ≡ no_items (length buffer.old) }
    {
        SliceVec { buffer, len: 0 }
    }

    // No values, at the front of the buffer, with room for so many.
    pub fn with_room(buffer: &'a mut [T], room: usize) -> SliceVec<'a, T>
        requires { room ≤ length buffer.old }
        ensures { result ≡ no_items room }
    {
        SliceVec::new(&mut buffer[..room])
    }

    pub fn len(&self) -> usize
        ensures { result ≡ length self.now.items }
    {
        self.len
    }

    pub fn is_empty(&self) -> bool
        ensures { result ≡ (length self.now.items == 0) }
    {
        self.len == 0
    }

    // Puts the value behind the others.
    pub fn push(&mut self, value: T) -> Result<(), Full>
        ensures { Pushes value self.old self.new result }
    {
        if self.len >= self.buffer.len() {
            return Err(Full);
        }
        self.buffer[self.len] = value;
        self.len += 1;
        Ok(())
    }

    // Puts the items behind the values, in order.
    pub fn extend<I: Iterator<Item = T> + Drop>(&mut self, items: I) -> Result<(), Full>
        requires can { I.can_next items }
        requires ends { IsFinite (I.remaining items) }
        ensures appends { (all : List T) → AlwaysYields I.next_gives (λ x. x) items all → Appends all self.old self.new result }
        ensures fits { IfOk result (λ _. length self.new.items ≤ self.new.room) }
    {
        // The values held fit, so that the others are all that can lack room.
        prove!(self.len <= self.buffer.len());
        for item in items {
            self.push(item)?;
        }
        Ok(())
    }

    pub fn clear(&mut self)
        ensures { self.new ≡ no_items self.old.room }
    {
        self.len = 0;
    }

    pub fn as_slice(&self) -> &[T]
        ensures { result.now ≡ self.now.items }
    {
        &self.buffer[..self.len]
    }

    // The values, for as long as the buffer is lent.
    pub fn into_slice(self) -> &'a [T]
        ensures { result.now ≡ self.entry.items }
    {
        let SliceVec { buffer, len } = self;
        &buffer[..len]
    }
}
