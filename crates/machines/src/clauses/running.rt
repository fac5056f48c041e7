// Running a day on a rule.
ghost use Rattle.std.specs.Prelude.{◌≡◌};
ghost use Rattle.automata.specs.Refusals.{said};
ghost use Rattle.automata.specs.Running.{taken_by, next, walk};
ghost use Rattle.machines.specs.RunCall.{led, ran, RunMeaning};

use super::Rule;
use crate::sizes::test_sizes;
use automata::limits::MOVES;
use automata::moves::Move;
use automata::refusals::Refusal;
use guards::algebra::Algebra;
use tables::machines::Machine;

// Whether the move goes from the state and admits the entry.
fn takes<A: Algebra>(alg: &A, line: &Move<A::Guard>, state: usize, e: A::Entry) -> bool
    ensures { result ≡ taken_by (A.model alg.now) state e line.now }
{
    line.from == state && alg.admits(line.guard, e)
}

// Where the first move leads that goes from the state and admits the entry.
fn next_state<A: Algebra>(
    alg: &A,
    moves: &[Move<A::Guard>],
    state: usize,
    e: A::Entry,
) -> Option<usize>
    ensures { result ≡ next (A.model alg.now) moves.now state e }
{
    moves
        .iter()
        .find(|line| takes(alg, line, state, e))
        .map(|line| line.to)
}

// The state that the day leads to from 0; refused at the place of the first entry without a next state.
fn follow<A: Algebra>(
    alg: &A,
    moves: &[Move<A::Guard>],
    day: &[A::Entry],
) -> Result<usize, Refusal<A::Entry>>
    ensures { result ≡ led (walk (next (A.model alg.now) moves.now) 0 0 day.now) }
{
    let mut state = 0;
    for (place, e) in day.iter().enumerate() {
        let Some(to) = next_state(alg, moves, state, *e) else {
            return Err(Refusal::NoMove(place));
        };
        state = to;
    }
    Ok(state)
}

impl Rule {
    // The state that the day leads to, and whether it is an ending: two answers, neither of which depends on the other.
    pub fn run<A: Algebra>(
        &self,
        alg: &A,
        table: &[Move<A::Guard>],
        day: &[A::Entry],
    ) -> Result<(usize, bool), Refusal<A::Entry>>
        ensures value { said result ≡ ran (A.model alg.now) self.now.counts self.now.endings table.now day.now }
        ensures meaning { RunMeaning (A.model alg.now) self.now.counts self.now.endings table.now day.now result }
    {
        test_sizes(&[(table.len(), MOVES)])?;
        let machine = Machine::new(self.counts, self.endings, table)?;
        let state = follow(alg, machine.moves, day)?;
        Ok((state, self.endings.contains(state)))
    }
}
