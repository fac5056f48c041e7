// The states that a clause reaches, and their new numbers.
ghost use Rattle.std.specs.Prelude.{◌≡◌, ◌≤◌, length};
ghost use Rattle.guards.specs.Lists.{Member};
ghost use Rattle.automata.specs.Checking.{number, order, sink};
ghost use Rattle.automata.specs.Limits.{most_states, mark_bytes};
ghost use Rattle.tables.specs.Machines.{machine_of};

use crate::reaching::ClauseGraph;
use automata::limits::STATES;
use guards::algebra::Algebra;
use tables::lists::Full;
use tables::searching::search;
use tables::worklists::Worklist;

// The states that are reached from the start, numbered in the order in which they are found.
#[derive(Drop)]
pub struct ReachedStates<'a, 'w, A: Algebra> {
    pub graph: ClauseGraph<'a, A>,
    pub work: Worklist<'w, usize>,
    ghost all: { work.found ≡ order (A.model graph.alg.now) (machine_of graph.clause.now) },
}

impl<'a, 'w, A: Algebra> ReachedStates<'a, 'w, A> {
    // Finds them; the buffers have their least sizes.
    pub(crate) fn new(
        graph: ClauseGraph<'a, A>,
        marks: &'w mut [u8],
        buffer: &'w mut [usize],
    ) -> ReachedStates<'a, 'w, A>
        requires bytes { mark_bytes ≤ length marks.old }
        requires room { most_states ≤ length buffer.old }
        ensures { result.graph ≡ graph.entry }
    {
        let mut work = Worklist::with_places(marks, buffer, STATES);
        match search(&graph, 0, &mut work) {
            Ok(()) => ReachedStates { graph, work },
            // All states have room.
            Err(Full) => unreachable!(),
        }
    }

    // The new number of a reached state.
    pub(crate) fn number(&self, state: usize) -> usize
        requires { Member state self.now.work.found }
        ensures { let g = self.now.graph in result ≡ number (A.model g.alg.now) (machine_of g.clause.now) state }
    {
        self.work.place_of(state)
    }

    // The number of the sink, which comes last.
    pub(crate) fn sink(&self) -> usize
        ensures { let g = self.now.graph in result ≡ sink (A.model g.alg.now) (machine_of g.clause.now) }
    {
        self.work.found().len()
    }
}
