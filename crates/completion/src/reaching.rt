// The states of a clause, as the nodes of a graph.
ghost use Rattle.std.specs.Prelude.{◌≡◌};
ghost use Rattle.automata.specs.Checking.{live, targets};
ghost use Rattle.tables.specs.Machines.{machine_of};

use crate::live_moves::LiveMoves;
use guards::algebra::Algebra;
use tables::lists::Full;
use tables::machines::Machine;
use tables::searching::Graph;
use tables::worklists::Worklist;

// A clause as written: each state leads to where its live moves lead.
#[derive(Drop)]
pub struct ClauseGraph<'a, A: Algebra> {
    pub alg: &'a A,
    pub clause: &'a Machine<'a, A::Guard>,
}

impl<'a, A: Algebra> ClauseGraph<'a, A> {
    // The live moves of the state, in table order.
    pub(crate) fn live_moves(&self, state: usize) -> LiveMoves<'a, A>
        ensures { result ≡ live (A.model self.now.alg.now) (machine_of self.now.clause.now) state }
    {
        LiveMoves::new(self.alg, self.clause.moves, state)
    }
}

impl<'a, A: Algebra> Graph for ClauseGraph<'a, A> {
    type Node = usize;

    ghost use Rattle.automata.specs.Checking.{targets};

    ghost successors = { λ s p. targets (A.model s.alg.now) s.clause.now.moves.now p };

    fn find_successors(&self, node: usize, work: &mut Worklist<usize>) -> Result<(), Full> {
        for line in self.live_moves(node) {
            work.add(line.to)?;
        }
        Ok(())
    }
}
