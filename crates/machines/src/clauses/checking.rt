// Checking: an open clause becomes a complete deterministic one that accepts the same days, or is handed back.
ghost use Rattle.std.specs.Prelude.{◌≡◌, Some, None, MatchResult, length};
ghost use Rattle.automata.specs.Clashes.{lowest_clash};
ghost use Rattle.automata.specs.Faults.{clash_why};
ghost use Rattle.automata.specs.Refusals.{told};
ghost use Rattle.machines.specs.Calls.{Outcome};
ghost use Rattle.machines.specs.CheckCall.{check_why, written, CheckedAs, CheckLaws, Rewritten};
ghost use Rattle.machines.specs.Runs.{CheckingRuns};
ghost use Rattle.machines.specs.Sizes.{check_sizes};

use super::{CheckedClause, OpenClause};
use crate::sizes::test_sizes;
use crate::work::WorkTables;
use automata::limits::{MARKS, MOVES, PARTS};
use automata::moves::Move;
use automata::refusals::{Refusal, Refused};
use completion::clashes::lowest_clash;
use completion::completing::complete;
use guards::algebra::Algebra;
use tables::counts::Counts;
use tables::endings::Endings;
use tables::machines::Machine;

// Refuses moves of which two clash, by the lowest clash.
fn test_clashes<A: Algebra>(alg: &A, moves: &[Move<A::Guard>]) -> Result<(), Refusal<A::Entry>>
    ensures { MatchResult result (λ _. lowest_clash (A.model alg.now) moves.now ≡ None) (λ why. clash_why (lowest_clash (A.model alg.now) moves.now) None ≡ Some (told why)) }
{
    match lowest_clash(alg, moves) {
        Some((first, second, sample)) => Err(Refusal::Clash {
            first,
            second,
            sample,
        }),
        None => Ok(()),
    }
}

impl OpenClause {
    // Writes the moves of the checked clause from place 0 of the clause's table, and gives its counts and endings.
    fn rewrite<A: Algebra>(
        &self,
        alg: &A,
        table: &mut [Move<A::Guard>],
        work: &mut WorkTables<A::Guard>,
    ) -> Result<(Counts, Endings), Refusal<A::Entry>>
        ensures table { Rewritten (A.model alg.now) self.now table.old (check_sizes (length table.old) work.old.spare work.old.marks work.old.parts work.old.others) table.new result }
        ensures sizes { work.new ≡ work.old }
    {
        let spare = &mut *work.spare;
        let marks = &mut *work.marks;
        let parts = &mut *work.parts;
        let others = &mut *work.others;
        test_sizes(&[
            (table.len(), MOVES),
            (spare.len(), MOVES),
            (marks.len(), MARKS),
            (parts.len(), PARTS),
            (others.len(), PARTS),
        ])?;
        let clause = Machine::new(self.counts, self.endings, table)?;
        test_clashes(alg, clause.moves)?;
        let checked = complete(alg, &clause, spare, marks, parts, others)?;
        let moves = checked.moves.len();
        table[..moves].copy_from_slice(checked.moves);
        Ok((checked.counts(), checked.endings))
    }

    // The checked clause, whose moves are written from place 0 of its table.
    pub fn check<A: Algebra>(
        self,
        alg: &A,
        table: &mut [Move<A::Guard>],
        work: &mut WorkTables<A::Guard>,
    ) -> Result<CheckedClause, Refused<OpenClause, A::Entry>>
        ensures value { Outcome (check_why (A.model alg.now) self table.old (check_sizes (length table.old) work.old.spare work.old.marks work.old.parts work.old.others)) (λ d. CheckedAs (A.model alg.now) self table.old d table.new) self (table.new ≡ table.old) result }
        ensures runs { CheckingRuns (A.model alg.now) self table.old table.new result }
        ensures laws { CheckLaws (A.model alg.now) (written (A.model alg.now) self table.old) }
        ensures sizes { work.new ≡ work.old }
    {
        match self.rewrite(alg, table, work) {
            Ok((counts, endings)) => {
                let OpenClause {
                    counts: _,
                    endings: _,
                } = self;
                Ok(CheckedClause { counts, endings })
            }
            Err(why) => Err(Refused { value: self, why }),
        }
    }
}
