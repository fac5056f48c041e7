// A check whose tables come from different borrows.
use crate::clauses::GARBAGE;
use automata::limits::{MARKS, MOVES, PARTS};
use automata::moves::Move;
use automata::refusals::Refused;
use guards::algebra::Algebra;
use guards::minutes::MINUTES;
use machines::clauses::OpenClause;
use machines::work::WorkTables;
use std::process::Abort;

// Whether a clause without moves is checked, with no pairs and tables that are each lent for a time of their own; the marks past the
// least size are written afterwards. It is generic, where the borrow check asks more than at one kind of guards.
fn check_lent<A: Algebra>(
    rt: &impl Abort,
    alg: &A,
    table: &mut [Move<A::Guard>],
    spare: &mut [Move<A::Guard>],
    marks: &mut [u8],
    parts: &mut [A::Guard],
    others: &mut [A::Guard],
) -> bool {
    assert!(rt; MARKS < marks.len());
    let (marks, later) = marks.split_at_mut(MARKS);
    let mut work = WorkTables {
        spare,
        marks,
        parts,
        others,
        pairs: &mut [],
    };
    let is_checked = match OpenClause::open(alg).check(alg, table, &mut work) {
        Ok(clause) => {
            clause.discard(alg);
            true
        }
        Err(Refused { value, why: _ }) => {
            value.discard(alg);
            false
        }
    };
    later[0] = 1;
    is_checked
}

#[test]
fn tables_of_different_borrows(rt: HostRuntime) {
    let mut table = [GARBAGE; MOVES];
    let mut spare = [GARBAGE; MOVES];
    let mut marks = [7u8; MARKS + 1];
    let mut parts = [GARBAGE.guard; PARTS];
    let mut others = [GARBAGE.guard; PARTS];
    assert!(rt;
        check_lent(
            &rt,
            &MINUTES,
            &mut table,
            &mut spare,
            &mut marks,
            &mut parts,
            &mut others
        )
    );
    assert_eq!(rt; marks[MARKS], 1);
}
