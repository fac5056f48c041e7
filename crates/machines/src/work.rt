// The work tables that checking and joining write in. A caller may hand over any sizes and any content.
ghost use Rattle.std.specs.Prelude.{◌≡◌, length};

use automata::moves::Move;
use automata::pairs::StatePair;
use std::marker::Model;

// Clauses see how many places each has; what stands in them is of no account. Each is lent for a time of its own, so that tables
// which come from different borrows can be lent together.
#[derive(Drop)]
pub struct WorkTables<'spare, 'marks, 'parts, 'others, 'pairs, G> {
    // Moves of a machine that is made.
    pub spare: &'spare mut [Move<G>],
    // A byte for each pair of states.
    pub marks: &'marks mut [u8],
    // The guards of a rest, and of the next.
    pub parts: &'parts mut [G],
    pub others: &'others mut [G],
    // The pairs of states of a product.
    pub pairs: &'pairs mut [StatePair],
}

impl<'spare, 'marks, 'parts, 'others, 'pairs, G> Model
    for WorkTables<'spare, 'marks, 'parts, 'others, 'pairs, G> {
    ghost use Rattle.std.specs.Prelude.{length};
    ghost use Rattle.machines.specs.Sizes.{Sizes};

    ghost Value = { Sizes };

    ghost view = { λ w. record { spare = length w.spare.now; marks = length w.marks.now; parts = length w.parts.now; others = length w.others.now; pairs = length w.pairs.now } };
}
