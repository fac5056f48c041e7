// Marks of separation: the round that separates each two states.
ghost use Rattle.std.specs.Prelude.{◌≡◌, ℕ, ◌<◌, ◌≤◌, not, ◌&&◌, length, Some, if◌then◌else◌, ◌==◌};
ghost use Rattle.automata.specs.Limits.{most_states, most_rounds, mark_bytes};
ghost use Rattle.tables.specs.Endings.{holds};
ghost use Rattle.reduction.specs.Marks.{apart_by, first_round, in_round, round_at};

use automata::limits::{MARKS, STATES};
use std::marker::Model;
use tables::endings::Endings;
use tables::nodes::pair_place;

// Each byte is one more than the round that separates its two states, or 0 where no round does: the caller lends a byte a pair, so
// that marking allocates nothing.
#[derive(Drop)]
pub struct PairMarks<'a> {
    bytes: &'a mut [u8],
}

impl<'a> Model for PairMarks<'a> {
    ghost use Rattle.std.specs.Prelude.{ℕ, ◌≤◌, List, length};
    ghost use Rattle.automata.specs.Limits.{mark_bytes};

    ghost Value = { List ℕ };

    ghost view = { λ m. m.bytes.now };

    ghost invariant = { λ m. mark_bytes ≤ length m.bytes.now };
}

impl<'a> PairMarks<'a> {
    // Marks each two states as round 0 separates them: where just one is an ending.
    pub(crate) fn new(endings: Endings, bytes: &'a mut [u8]) -> PairMarks<'a>
        requires { mark_bytes ≤ length bytes.old }
        ensures { (p q : ℕ) → p < most_states → q < most_states → round_at result p q ≡ first_round (holds endings) p q }
    {
        for (place, mark) in bytes[..MARKS].iter_mut().enumerate() {
            let (p, q) = (place / STATES, place % STATES);
            *mark = u8::from(endings.contains(p) != endings.contains(q));
        }
        PairMarks { bytes }
    }

    // The round that separates two states; None where none does, or where one is not below the limit.
    pub(crate) fn round(&self, p: usize, q: usize) -> Option<usize>
        ensures { result ≡ round_at self.now p q }
    {
        if p >= STATES || q >= STATES {
            return None;
        }
        usize::from(self.bytes[pair_place(p, q)]).checked_sub(1)
    }

    // Whether a round separates two states.
    pub(crate) fn is_apart(&self, p: usize, q: usize) -> bool
        ensures { result ≡ apart_by self.now p q }
    {
        self.round(p, q).is_some()
    }

    // Whether no round separates two states below the limit. This and the next serve the pairs of moves that a round goes through:
    // all that they name lies below the limit, so that it is not tested again.
    pub(crate) fn is_unmarked(&self, p: usize, q: usize) -> bool
        requires { (p < most_states) × (q < most_states) }
        ensures { result ≡ not (apart_by self.now p q) }
    {
        self.bytes[pair_place(p, q)] == 0
    }

    // Whether the round separates two states below the limit.
    pub(crate) fn is_marked_in(&self, p: usize, q: usize, round: usize) -> bool
        requires states { (p < most_states) × (q < most_states) }
        requires small { round < most_rounds }
        ensures { result ≡ in_round self.now round p q }
    {
        usize::from(self.bytes[pair_place(p, q)]) == round + 1
    }

    // Marks two states as separated in the round.
    pub(crate) fn set(&mut self, p: usize, q: usize, round: usize)
        requires states { (p < most_states) × (q < most_states) }
        requires small { round < most_rounds }
        ensures { (i j : ℕ) → round_at self.new i j ≡ (if p == i && q == j then Some round else round_at self.old i j) }
    {
        self.bytes[pair_place(p, q)] = round as u8 + 1;
    }
}
