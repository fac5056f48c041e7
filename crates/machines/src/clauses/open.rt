// The calls on an open clause: opening, adding, marking, writing and discarding.
ghost use Rattle.std.specs.Prelude.{◌≡◌, None, Some, MatchResult};
ghost use Rattle.automata.specs.Refusals.{told};
ghost use Rattle.machines.specs.Calls.{Outcome, Opened, Added, Marked, Written, adding_refused, marking_refused, writing_refused};
ghost use Rattle.machines.specs.Runs.{OpeningRuns, AddingRuns, MarkingRuns, WritingRuns, OpenDiscardingRuns};

use super::OpenClause;
use super::states::test_states;
use crate::sizes::test_sizes;
use automata::limits::{MOVES, WRITTEN_STATES};
use automata::moves::Move;
use automata::refusals::{Refusal, Refused};
use guards::algebra::Algebra;
use tables::counts::Counts;
use tables::endings::Endings;

impl OpenClause {
    // A clause with state 0 alone: no moves and no endings.
    pub fn open<A: Algebra>(alg: &A) -> OpenClause
        ensures value { Opened result }
        ensures runs { OpeningRuns (A.model alg.now) result }
    {
        OpenClause {
            counts: Counts {
                states: 1,
                moves: 0,
            },
            endings: Endings::none(),
        }
    }

    // One state more, and its number.
    pub fn add<A: Algebra>(
        self,
        alg: &A,
    ) -> Result<(OpenClause, usize), Refused<OpenClause, A::Entry>>
        ensures value { Outcome (adding_refused self) (Added self) self (Unit {0}) result }
        ensures runs { AddingRuns (A.model alg.now) self result }
    {
        if self.counts.states >= WRITTEN_STATES {
            return Err(Refused {
                value: self,
                why: Refusal::TooManyStates,
            });
        }
        let OpenClause { counts, endings } = self;
        let Counts { states, moves } = counts;
        let counts = Counts {
            states: states + 1,
            moves,
        };
        Ok((OpenClause { counts, endings }, states))
    }

    // The clause with that state an ending.
    pub fn mark<A: Algebra>(
        self,
        alg: &A,
        state: usize,
    ) -> Result<OpenClause, Refused<OpenClause, A::Entry>>
        ensures value { Outcome (marking_refused self state) (Marked self state) self (Unit {0}) result }
        ensures runs { MarkingRuns (A.model alg.now) self state result }
    {
        if state >= self.counts.states {
            return Err(Refused {
                value: self,
                why: Refusal::NoSuchState(state),
            });
        }
        let OpenClause { counts, endings } = self;
        Ok(OpenClause {
            counts,
            endings: endings.insert(state),
        })
    }

    // Refuses a move that cannot be written.
    fn test_write<E, G>(&self, table: &[Move<G>], line: &Move<G>) -> Result<(), Refusal<E>>
        ensures { MatchResult result (λ _. writing_refused {E = E} self.now table.now line.now ≡ None) (λ why. writing_refused self.now table.now line.now ≡ Some (told why)) }
    {
        test_sizes(&[(table.len(), MOVES)])?;
        test_states(self.counts.states, line.from, line.to)?;
        if self.counts.moves >= MOVES {
            return Err(Refusal::TableFull);
        }
        Ok(())
    }

    // The clause with that move at the next place of its table.
    pub fn write<A: Algebra>(
        self,
        alg: &A,
        table: &mut [Move<A::Guard>],
        line: Move<A::Guard>,
    ) -> Result<OpenClause, Refused<OpenClause, A::Entry>>
        ensures value { Outcome (writing_refused self table.old line) (λ c. Written self table.old line c table.new) self (table.new ≡ table.old) result }
        ensures runs { WritingRuns (A.model alg.now) self line table.old table.new result }
    {
        if let Err(why) = self.test_write(table, &line) {
            return Err(Refused { value: self, why });
        }
        let OpenClause { counts, endings } = self;
        let Counts { states, moves } = counts;
        table[moves] = line;
        let counts = Counts {
            states,
            moves: moves + 1,
        };
        Ok(OpenClause { counts, endings })
    }

    // Ends the clause.
    pub fn discard<A: Algebra>(self, alg: &A)
        ensures { OpenDiscardingRuns (A.model alg.now) self }
    {
        let OpenClause {
            counts: _,
            endings: _,
        } = self;
    }

    pub fn counts(&self) -> Counts
        ensures { result ≡ self.now.counts }
    {
        self.counts
    }

    pub fn endings(&self) -> Endings
        ensures { result ≡ self.now.endings }
    {
        self.endings
    }
}
