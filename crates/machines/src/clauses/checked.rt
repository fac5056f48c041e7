// The calls on a checked clause: discarding.
ghost use Rattle.std.specs.Prelude.{◌≡◌};
ghost use Rattle.machines.specs.Runs.{CheckedDiscardingRuns};

use super::CheckedClause;
use guards::algebra::Algebra;
use tables::counts::Counts;
use tables::endings::Endings;

impl CheckedClause {
    // Ends the clause.
    pub fn discard<A: Algebra>(self, alg: &A)
        ensures { CheckedDiscardingRuns (A.model alg.now) self }
    {
        let CheckedClause {
            counts: _,
            endings: _,
        } = self;
    }

    pub fn counts(&self) -> Counts
        ensures { result ≡ self.now.counts }
    {
        self.counts
    }

    pub fn endings(&self) -> Endings
        ensures { result ≡ self.now.endings }
    {
        self.endings
    }
}
