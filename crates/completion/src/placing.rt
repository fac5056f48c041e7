// Placing: the moves of the reached states, under their new numbers, and what leads to the sink.
ghost use Rattle.std.specs.Prelude.{◌≡◌};
ghost use Rattle.std.specs.List.{flat_map, list_all};
ghost use Rattle.guards.specs.Lists.{Member};
ghost use Rattle.automata.specs.Checking.{order, placed};
ghost use Rattle.completion.specs.Placing.{AllPlaced, Places, fits_at, lines_of, sunk};
ghost use Rattle.tables.specs.Lists.{Appends};
ghost use Rattle.tables.specs.Machines.{machine_of};

use crate::reached::ReachedStates;
use crate::rests::Rest;
use automata::moves::Move;
use guards::algebra::Algebra;
use tables::lists::{Full, SliceVec};

impl<'a, 'w, A: Algebra> ReachedStates<'a, 'w, A> {
    // Places the live moves of the state. It is asked, here and below, that the state is reached: a type of reached states would
    // not say by which search.
    fn place_lines(&self, state: usize, moves: &mut SliceVec<Move<A::Guard>>) -> Result<(), Full>
        requires { Member state self.now.work.found }
        ensures { let g = self.now.graph in Appends (lines_of (A.model g.alg.now) (machine_of g.clause.now) state) moves.old moves.new result }
    {
        let from = self.number(state);
        for line in self.graph.live_moves(state) {
            moves.push(Move {
                from,
                guard: line.guard,
                to: self.number(line.to),
            })?;
        }
        Ok(())
    }

    // Places a move from the state to the sink for each guard.
    fn place_rest(
        &self,
        state: usize,
        guards: &[A::Guard],
        moves: &mut SliceVec<Move<A::Guard>>,
    ) -> Result<(), Full>
        requires { Member state self.now.work.found }
        ensures { let g = self.now.graph in Appends (sunk (A.model g.alg.now) (machine_of g.clause.now) state guards.now) moves.old moves.new result }
    {
        let from = self.number(state);
        let to = self.sink();
        moves.extend(guards.iter().map(|&guard| Move { from, guard, to }))
    }

    // Places the live moves of the state, and then its rest.
    fn place_state(
        &self,
        state: usize,
        rest: &mut Rest<A>,
        moves: &mut SliceVec<Move<A::Guard>>,
    ) -> Result<(), Full>
        requires { Member state self.now.work.found }
        ensures { let g = self.now.graph in let alg = A.model g.alg.now in let M = machine_of g.clause.now in
            Places (fits_at alg M state) (placed alg M state) moves.old moves.new result }
    {
        rest.leave(&self.graph, state)?;
        self.place_lines(state, moves)?;
        self.place_rest(state, rest.guards(), moves)
    }

    // Places what each state places, in order.
    pub(crate) fn place_states(
        &self,
        rest: &mut Rest<A>,
        moves: &mut SliceVec<Move<A::Guard>>,
    ) -> Result<(), Full>
        ensures { let g = self.now.graph in let alg = A.model g.alg.now in let M = machine_of g.clause.now in
            Places (list_all (fits_at alg M) (order alg M)) (flat_map (placed alg M) (order alg M)) moves.old moves.new result }
    {
        for state in self.work.found() {
            self.place_state(*state, rest, moves)?;
        }
        Ok(())
    }

    // Places the sink's own move, if a move leads to the sink, which it does just where a rest is not empty; gives the count of
    // states.
    pub(crate) fn place_sink(&self, moves: &mut SliceVec<Move<A::Guard>>) -> Result<usize, Full>
        requires { let g = self.now.graph in let alg = A.model g.alg.now in let M = machine_of g.clause.now in
            moves.old.items ≡ flat_map (placed alg M) (order alg M) }
        ensures { let g = self.now.graph in AllPlaced (A.model g.alg.now) (machine_of g.clause.now) moves.old moves.new result }
    {
        let sink = self.sink();
        let leads = moves.as_slice().iter().any(|line| line.to == sink);
        let own = leads.then_some(Move {
            from: sink,
            guard: self.graph.alg.whole(),
            to: sink,
        });
        moves.extend(own.into_iter())?;
        Ok(sink + usize::from(leads))
    }
}
