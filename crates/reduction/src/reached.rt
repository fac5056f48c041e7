// The pairs that a product reaches, and their moves under their numbers.
ghost use Rattle.std.specs.Prelude.{◌≡◌, ◌<◌, ◌≤◌, length, IfOk, MatchResult};
ghost use Rattle.std.specs.List.{flat_map};
ghost use Rattle.guards.specs.Lists.{Member};
ghost use Rattle.automata.specs.Product.{pairs, pair_number, product_moves};
ghost use Rattle.automata.specs.Limits.{most_states, most_moves};
ghost use Rattle.tables.specs.Lists.{Appends};
ghost use Rattle.tables.specs.Machines.{machine_of};

use crate::pairing::PairGraph;
use automata::limits::MOVES;
use automata::moves::Move;
use automata::pairs::{PairMove, StatePair};
use guards::algebra::Algebra;
use tables::lists::{Full, SliceVec};
use tables::worklists::Worklist;

// The pairs that a graph reaches from the starts, numbered in the order in which they are found.
#[derive(Drop)]
pub struct ReachedPairs<'a, 'w, A: Algebra> {
    pub graph: PairGraph<'a, A>,
    pub work: Worklist<'w, StatePair>,
    ghost all: { work.found ≡ pairs (A.model graph.alg.now) (machine_of graph.rule.now) (machine_of graph.clause.now) },
    ghost few: { length work.found ≤ most_states },
}

impl<'a, 'w, A: Algebra> ReachedPairs<'a, 'w, A> {
    // The move of the pair with the number `from`, to the number of the pair to which it leads.
    fn number(&self, from: usize, found: PairMove<A::Guard>) -> Move<A::Guard>
        requires { Member found.to self.now.work.found }
        ensures { let s = self.now.graph in
            let number = pair_number (A.model s.alg.now) (machine_of s.rule.now) (machine_of s.clause.now) in
            result ≡ record { from = from; guard = found.guard; to = number found.to } }
    {
        Move {
            from,
            guard: found.guard,
            to: self.work.place_of(found.to),
        }
    }

    // Puts the moves of the pair behind the others.
    fn put_moves(&self, pair: StatePair, out: &mut SliceVec<Move<A::Guard>>) -> Result<(), Full>
        requires found { Member pair self.now.work.found }
        requires within { length out.old.items ≤ out.old.room }
        ensures appends { let s = self.now.graph in
            let moves = product_moves (A.model s.alg.now) (machine_of s.rule.now) (machine_of s.clause.now) in
            Appends (moves pair) out.old out.new result }
        ensures within { IfOk result (λ _. length out.new.items ≤ out.new.room) }
    {
        let from = self.work.place_of(pair);
        for found in self.graph.moves(pair) {
            out.push(self.number(from, found))?;
        }
        Ok(())
    }

    // Writes the moves of all reached pairs to the front of the table, in the order of the pairs; refused where they have no room.
    pub(crate) fn place_moves<'s>(
        &self,
        table: &'s mut [Move<A::Guard>],
    ) -> Result<&'s [Move<A::Guard>], Full>
        requires room { most_moves ≤ length table.old }
        ensures { let s = self.now.graph in
            let moves = product_moves (A.model s.alg.now) (machine_of s.rule.now) (machine_of s.clause.now) in
            let all = flat_map moves self.now.work.found in
            MatchResult result (λ placed. (placed.now ≡ all) × (length all ≤ most_moves)) (λ _. most_moves < length all) }
    {
        let mut out = SliceVec::with_room(table, MOVES);
        for pair in self.work.found() {
            self.put_moves(*pair, &mut out)?;
        }
        Ok(out.into_slice())
    }
}
