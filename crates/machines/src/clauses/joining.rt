// Joining: a checked clause is joined to the rule, which stays at its smallest, or both are handed back.
ghost use Rattle.std.specs.Prelude.{◌≡◌, length};
ghost use Rattle.automata.specs.Joining.{JoinLaws};
ghost use Rattle.automata.specs.Promises.{RulesMatch};
ghost use Rattle.machines.specs.Calls.{Outcome};
ghost use Rattle.machines.specs.JoinCall.{joining_why, clause_machine, JoinedAs, JoiningRuns, JoinKept, Rejoined};
ghost use Rattle.machines.specs.Runs.{rule_machine};
ghost use Rattle.machines.specs.Sizes.{join_sizes};

use super::{CheckedClause, Rule, Unjoined};
use crate::sizes::test_sizes;
use crate::work::WorkTables;
use automata::joins::JoinBy;
use automata::limits::{MARKS, MOVES, PAIRS};
use automata::moves::Move;
use automata::refusals::{Refusal, Refused};
use guards::algebra::Algebra;
use reduction::products::build_product;
use reduction::reducing::reduce;
use tables::counts::Counts;
use tables::endings::Endings;
use tables::machines::Machine;

impl Rule {
    // Writes the moves of the joined rule from place 0 of the rule's table, and gives its counts and endings.
    fn rejoin<A: Algebra>(
        &self,
        alg: &A,
        clause: &CheckedClause,
        way: JoinBy,
        table: &mut [Move<A::Guard>],
        clause_table: &[Move<A::Guard>],
        work: &mut WorkTables<A::Guard>,
    ) -> Result<(Counts, Endings), Refusal<A::Entry>>
        ensures table { Rejoined (A.model alg.now) self.now clause.now way table.old clause_table.now (join_sizes (length table.old) (length clause_table.now) work.old.spare work.old.marks work.old.pairs) table.new result }
        ensures sizes { work.new ≡ work.old }
    {
        let spare = &mut *work.spare;
        let marks = &mut *work.marks;
        let pairs = &mut *work.pairs;
        test_sizes(&[
            (table.len(), MOVES),
            (clause_table.len(), MOVES),
            (spare.len(), MOVES),
            (marks.len(), MARKS),
            (pairs.len(), PAIRS),
        ])?;
        let rule = Machine::new(self.counts, self.endings, table)?;
        let clause = Machine::new(clause.counts, clause.endings, clause_table)?;
        let product = build_product(alg, way, &rule, &clause, spare, marks, pairs)?;
        Ok(reduce(alg, &product, marks, table))
    }

    // The rule with the clause joined to it, at its smallest; its moves are written from place 0 of its table. What takes part is
    // of kinds of its own, and handed back or lent apart, so that a struct of it would be made for this call alone.
    pub fn join<A: Algebra>(
        self,
        alg: &A,
        clause: CheckedClause,
        way: JoinBy,
        table: &mut [Move<A::Guard>],
        clause_table: &[Move<A::Guard>],
        work: &mut WorkTables<A::Guard>,
    ) -> Result<Rule, Refused<Unjoined, A::Entry>>
        ensures value { Outcome (joining_why (A.model alg.now) self clause way table.old clause_table.now (join_sizes (length table.old) (length clause_table.now) work.old.spare work.old.marks work.old.pairs)) (JoinedAs (A.model alg.now) self clause way table.old clause_table.now table.new) (record { rule = self; clause = clause }) (table.new ≡ table.old) result }
        ensures runs { JoiningRuns (A.model alg.now) self clause way table.old clause_table.now table.new result }
        ensures kept { JoinKept (A.model alg.now) self clause way table.old clause_table.now table.new result }
        ensures matches { RulesMatch (A.model alg.now) }
        ensures laws { JoinLaws (A.model alg.now) (rule_machine self table.old) (clause_machine clause clause_table.now) way }
        ensures sizes { work.new ≡ work.old }
    {
        match self.rejoin(alg, &clause, way, table, clause_table, work) {
            Ok((counts, endings)) => {
                let Rule {
                    counts: _,
                    endings: _,
                } = self;
                clause.discard(alg);
                Ok(Rule { counts, endings })
            }
            Err(why) => Err(Refused {
                value: Unjoined { rule: self, clause },
                why,
            }),
        }
    }
}
