// Pairing: the pairs of states of a rule and a clause, as the nodes of a graph.
ghost use Rattle.std.specs.Prelude.{◌≡◌, ◌<◌, [], length, MatchResult};
ghost use Rattle.automata.specs.Product.{pair_moves, pair_targets, pairs};
ghost use Rattle.automata.specs.Limits.{most_states};
ghost use Rattle.automata.specs.declared.refusals.Refusal.TheVariants.{TooManyPairs};
ghost use Rattle.tables.specs.Machines.{machine_of};
ghost use Rattle.tables.specs.Worklists.{Finds};

use crate::pair_moves::PairMoves;
use automata::pairs::StatePair;
use automata::refusals::Refusal;
use guards::algebra::Algebra;
use tables::lists::Full;
use tables::machines::Machine;
use tables::searching::{Graph, search};
use tables::worklists::Worklist;

// A rule beside a clause: each pair of their states leads to the pairs to which its moves lead.
#[derive(Drop)]
pub struct PairGraph<'a, A: Algebra> {
    pub alg: &'a A,
    pub rule: &'a Machine<'a, A::Guard>,
    pub clause: &'a Machine<'a, A::Guard>,
}

impl<'a, A: Algebra> PairGraph<'a, A> {
    // The moves of the pair.
    pub(crate) fn moves(&self, pair: StatePair) -> PairMoves<'a, A>
        ensures { result ≡ pair_moves (A.model self.now.alg.now) self.now.rule.now.moves.now self.now.clause.now.moves.now pair }
    {
        PairMoves::new(self.alg, pair, self.rule.moves, self.clause.moves)
    }

    // Finds the pairs that are reached from the starts, breadth first; refused where they are too many.
    pub(crate) fn reach(&self, work: &mut Worklist<StatePair>) -> Result<(), Refusal<A::Entry>>
        requires fresh { work.old ≡ record { found = []; visited = 0 } }
        ensures { let xs = pairs (A.model self.now.alg.now) (machine_of self.now.rule.now) (machine_of self.now.clause.now) in
            MatchResult result (λ _. work.new.found ≡ xs) (λ why. (why ≡ TooManyPairs) × (most_states < length xs)) }
    {
        let start = StatePair { rule: 0, clause: 0 };
        search(self, start, work).map_err(|_| Refusal::TooManyPairs)
    }
}

impl<'a, A: Algebra> Graph for PairGraph<'a, A> {
    type Node = StatePair;

    ghost successors = { λ s x. pair_targets (A.model s.alg.now) s.rule.now.moves.now s.clause.now.moves.now x };

    fn find_successors(&self, node: StatePair, work: &mut Worklist<StatePair>) -> Result<(), Full> {
        for found in self.moves(node) {
            work.add(found.to)?;
        }
        Ok(())
    }
}
