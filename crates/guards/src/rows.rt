// Algebras over plain rows: numbers that may make a guard, and are read as the empty guard where they make none.
ghost use Rattle.std.specs.Prelude.{◌≡◌, Bool, false, Some, MatchOption, true};
ghost use Rattle.std.specs.List.{slice_get};
ghost use Rattle.guards.specs.Algebra.{Model, Laws};
ghost use Rattle.guards.specs.Rows.{ReadAsEmpty};

use crate::algebra::{Algebra, only};
use std::marker::PhantomData;

// A guard that admits something, and the rows that guards of its kind are written as.
pub trait RowGuard: Copy {
    type Entry: Copy;

    type Row: Copy;

    // The row that the empty guard is written as: tables and records hold rows, so that it has one too.
    const EMPTY: Self::Row;

    ghost EMPTY: { Self.Row };

    // What the algebra answers over rows, and which rows make a guard.
    ghost model: { Model Self.Entry Self.Row };

    ghost makes: { Self.Row → Bool };

    // The row that the guard is written as.
    ghost written: { Self → Self.Row };

    // The row of the guard that admits the whole domain.
    fn whole() -> Self::Row
        ensures { result ≡ model.whole };

    // The guard that the row makes; None where it makes none.
    fn read(row: Self::Row) -> Option<Self>
        ensures { MatchOption result (makes row ≡ false) (λ g. (makes row ≡ true) × (written g ≡ row)) };

    // Whether the guard admits the entry.
    fn admits(self, of: Self::Entry) -> bool
        ensures { result ≡ model.admits (written self) of };

    // The row of the guard that admits what both admit; None where that is the empty guard.
    fn meet(self, other: Self) -> Option<Self::Row>
        ensures { let met = model.meet (written self) (written other) in MatchOption result (met ≡ EMPTY) (λ row. met ≡ row) };

    // An entry that the guard admits.
    fn sample(self) -> Self::Entry
        ensures { Some result ≡ model.sample (written self) };

    // The part of that number of this guard without the other.
    fn part(self, other: Self, number: usize) -> Option<Self::Row>
        ensures { result ≡ slice_get (model.parts (written self) (written other)) number };

    // A row that makes no guard is answered for as the empty guard.
    ghost empty: { (row : Self.Row) → makes row ≡ false → ReadAsEmpty model makes EMPTY row };

    ghost lawful: { Laws model };
}

// The algebra of the rows of a kind of guard.
#[derive(Clone, Copy, Drop)]
pub struct Rows<G> {
    pub(crate) of: PhantomData<G>,
}

impl<G: RowGuard> Algebra for Rows<G> {
    type Entry = G::Entry;

    type Guard = G::Row;

    ghost model = { λ _. G.model };

    ghost lawful = { λ _. G.lawful };

    fn whole(&self) -> G::Row {
        G::whole()
    }

    fn admits(&self, guard: G::Row, of: G::Entry) -> bool {
        G::read(guard).is_some_and(|guard| guard.admits(of))
    }

    fn meet(&self, a: G::Row, b: G::Row) -> G::Row {
        G::read(a)
            .zip(G::read(b))
            .and_then(|(x, y)| x.meet(y))
            .unwrap_or(G::EMPTY)
    }

    fn sample(&self, guard: G::Row) -> Option<G::Entry> {
        G::read(guard).map(|guard| guard.sample())
    }

    fn rest(&self, a: G::Row, b: G::Row, part: usize) -> Option<G::Row> {
        let x = G::read(a)?;
        match G::read(b) {
            Some(y) => x.part(y, part),
            None => only(a, part),
        }
    }
}
