// Why a call is refused: one enum for all calls, so that a refusal means the same whoever reports it.
ghost use Rattle.std.specs.Prelude.{◌≡◌};
ghost use Rattle.automata.specs.Refusals.{told};
ghost use Rattle.automata.specs.declared.refusals.Refusal.TheVariants.{BadNumbers};

use guards::malformed::Malformed;

// A refusal, with what it carries; the cases stand in the order of their numbers, from 1.
#[derive(Clone, Copy, PartialEq, Eq, Debug)]
pub enum Refusal<E> {
    // A table or buffer is shorter than its least size.
    TooShort,
    // A state is added to a clause of 63 states.
    TooManyStates,
    // A state is not below the count; carries the state.
    NoSuchState(usize),
    // A move is written where 1,024 moves stand.
    TableFull,
    // Two moves break determinism; carries the lowest first move, the lowest second and the sample of their meet.
    Clash {
        first: usize,
        second: usize,
        sample: E,
    },
    // A rest list has more than 256 guards, or there are more than 1,024 moves.
    TooLarge,
    // More than 64 pairs are reached.
    TooManyPairs,
    // A counted move names a state that is not below the count.
    StrayMove,
    // No move admits the entry at a place; carries the place.
    NoMove(usize),
    // Two states are not separated.
    NotSeparated,
    // Numbers make no guard and no entry; carries which.
    BadNumbers(Malformed),
    // A record is out of place.
    OutOfPlace,
}

impl<E> Refusal<E> {
    // The number by which a refusal is reported.
    pub fn number(&self) -> u8
        ensures { result ≡ (told self.now).number }
    {
        match self {
            Refusal::TooShort => 1,
            Refusal::TooManyStates => 2,
            Refusal::NoSuchState(_) => 3,
            Refusal::TableFull => 4,
            Refusal::Clash { .. } => 5,
            Refusal::TooLarge => 6,
            Refusal::TooManyPairs => 7,
            Refusal::StrayMove => 8,
            Refusal::NoMove(_) => 9,
            Refusal::NotSeparated => 10,
            Refusal::BadNumbers(_) => 11,
            Refusal::OutOfPlace => 12,
        }
    }
}

impl<E> From<Malformed> for Refusal<E> {
    ghost from_gives = { λ why refusal. refusal ≡ BadNumbers why };

    fn from(why: Malformed) -> Refusal<E> {
        Refusal::BadNumbers(why)
    }
}

// A refused call: what was moved into it, handed back, and why.
pub struct Refused<T, E> {
    pub value: T,
    pub why: Refusal<E>,
}

impl<T, E> Refused<T, E> {
    // The refusal of a call that was moved what holds the value.
    pub fn map<U, F: FnOnce(T) -> U>(self, f: F) -> Refused<U, E>
        requires { F.pre f self.value }
        ensures why { result.why ≡ self.why }
        ensures value { F.post f self.value result.value }
    {
        let Refused { value, why } = self;
        Refused {
            value: f(value),
            why,
        }
    }
}
