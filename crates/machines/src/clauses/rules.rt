// The calls on a rule: a new sheet, turning over and ending.
ghost use Rattle.std.specs.Prelude.{◌≡◌};
ghost use Rattle.automata.specs.Promises.{LeastOfKind, RulesKept, RulesMatch};
ghost use Rattle.machines.specs.Calls.{SheetOutcome, Turned};
ghost use Rattle.machines.specs.Promised.{NewSheetKept};
ghost use Rattle.machines.specs.Runs.{TurningRuns};
ghost use Rattle.machines.specs.Turning.{TurnMeaning};

use super::Rule;
use crate::sizes::test_sizes;
use automata::limits::MOVES;
use automata::moves::Move;
use automata::refusals::Refusal;
use guards::algebra::Algebra;
use tables::counts::Counts;
use tables::endings::Endings;

impl Rule {
    // A rule that accepts every day: one state, an ending, with the whole guard to itself.
    pub fn new_sheet<A: Algebra>(
        alg: &A,
        table: &mut [Move<A::Guard>],
    ) -> Result<Rule, Refusal<A::Entry>>
        ensures value { SheetOutcome (A.model alg.now).whole table.old table.new result }
        ensures kept { NewSheetKept (A.model alg.now) table.new result }
        ensures promises { RulesKept (A.model alg.now) × RulesMatch (A.model alg.now) }
    {
        test_sizes(&[(table.len(), MOVES)])?;
        table[0] = Move {
            from: 0,
            guard: alg.whole(),
            to: 0,
        };
        Ok(Rule {
            counts: Counts {
                states: 1,
                moves: 1,
            },
            endings: Endings::none().insert(0),
        })
    }

    // The rule that accepts exactly the other days.
    pub fn turn<A: Algebra>(self, alg: &A) -> Rule
        ensures value { Turned self result }
        ensures meaning { TurnMeaning (A.model alg.now) self result }
        ensures runs { TurningRuns (A.model alg.now) self result }
    {
        let Rule { counts, endings } = self;
        Rule {
            counts,
            endings: endings.complement(counts.states),
        }
    }

    // Ends the rule.
    pub fn end<A: Algebra>(self, alg: &A) {
        let Rule {
            counts: _,
            endings: _,
        } = self;
    }

    // How many states the rule has. No machine that accepts the same days has fewer states of any kind.
    pub fn least_states<A: Algebra, Q>(&self, alg: &A) -> usize
        ensures value { result ≡ self.now.counts.states }
        ensures least { LeastOfKind (A.model alg.now) Q }
    {
        let Counts { states, moves: _ } = self.counts;
        states
    }

    pub fn counts(&self) -> Counts
        ensures { result ≡ self.now.counts }
    {
        self.counts
    }

    pub fn endings(&self) -> Endings
        ensures { result ≡ self.now.endings }
    {
        self.endings
    }
}
