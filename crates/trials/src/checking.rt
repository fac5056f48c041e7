// How clauses over minutes are written and checked on examples: what a check makes, and what a refused one leaves.
use crate::clauses::{GARBAGE, whole_move};
use automata::limits::{MARKS, MOVES, PARTS};
use automata::moves::Move;
use automata::refusals::{Refusal, Refused};
use guards::minutes::{MINUTES, MinuteRow};
use machines::clauses::OpenClause;
use machines::work::WorkTables;
use std::process::Abort;
use tables::counts::Counts;
use tables::endings::Endings;

// A state that no clause has: marking it leaves a clause without endings, and is itself a case of a refused call.
pub(crate) const NO_STATE: usize = 64;

pub(crate) fn line(from: usize, first: u16, last: u16, to: usize) -> Move<MinuteRow> {
    Move {
        from,
        guard: MinuteRow { first, last },
        to,
    }
}

// A clause of at most 63 states, with that ending if it has the state.
fn blank_clause(states: usize, ending: usize) -> OpenClause {
    let mut clause = OpenClause::open(&MINUTES);
    for _ in 1..states {
        clause = match clause.add(&MINUTES) {
            Ok((clause, _)) => clause,
            Err(Refused { value, why: _ }) => value,
        };
    }
    match clause.mark(&MINUTES, ending) {
        Ok(clause) => clause,
        Err(Refused { value, why: _ }) => value,
    }
}

// Such a clause with the lines written.
pub(crate) fn clause_of(
    states: usize,
    ending: usize,
    table: &mut [Move<MinuteRow>],
    lines: &[Move<MinuteRow>],
) -> OpenClause {
    let mut clause = blank_clause(states, ending);
    for line in lines {
        clause = match clause.write(&MINUTES, table, *line) {
            Ok(clause) => clause,
            Err(Refused { value, why: _ }) => value,
        };
    }
    clause
}

// What a check leaves: the counts and endings of the clause it hands out, and why it is refused. A refused check hands a clause out
// too, and the tests look at both.
#[derive(Clone, Copy)]
pub(crate) struct Left {
    pub(crate) counts: Counts,
    pub(crate) endings: Endings,
    pub(crate) refusal: Option<Refusal<u16>>,
}

pub(crate) fn check_in(
    clause: OpenClause,
    table: &mut [Move<MinuteRow>],
    work: &mut WorkTables<MinuteRow>,
) -> Left {
    match clause.check(&MINUTES, table, work) {
        Ok(clause) => {
            let left = Left {
                counts: clause.counts(),
                endings: clause.endings(),
                refusal: None,
            };
            clause.discard(&MINUTES);
            left
        }
        Err(Refused { value, why }) => {
            let left = Left {
                counts: value.counts(),
                endings: value.endings(),
                refusal: Some(why),
            };
            value.discard(&MINUTES);
            left
        }
    }
}

// A check with tables and buffers of the least sizes.
fn check_it(clause: OpenClause, table: &mut [Move<MinuteRow>; MOVES]) -> Left {
    let mut spare = [whole_move(7, 7); MOVES];
    let mut marks = [7u8; MARKS];
    let mut parts = [GARBAGE.guard; PARTS];
    let mut others = [GARBAGE.guard; PARTS];
    let mut work = WorkTables {
        spare: &mut spare,
        marks: &mut marks,
        parts: &mut parts,
        others: &mut others,
        pairs: &mut [],
    };
    check_in(clause, table, &mut work)
}

// The clause of the states, the ending and the lines is made into that of the others; further places stay.
pub(crate) fn makes(
    rt: &impl Abort,
    written: (usize, usize, &[Move<MinuteRow>]),
    checked: (usize, usize, &[Move<MinuteRow>]),
) {
    let (states, ending, lines) = written;
    let mut table = [GARBAGE; MOVES];
    let clause = clause_of(states, ending, &mut table, lines);
    let (states, ending, lines) = checked;
    let mut wanted = table;
    for (place, line) in wanted.iter_mut().zip(lines.iter()) {
        *place = *line;
    }
    let left = check_it(clause, &mut table);
    assert_eq!(rt; left.refusal, None);
    let moves = lines.len();
    assert_eq!(rt; left.counts, Counts { states, moves });
    for state in 0..NO_STATE {
        assert_eq!(rt; left.endings.contains(state), state == ending);
    }
    assert!(rt; table == wanted);
}

// The check of a clause with the first lines in its table changed is refused, and leaves clause and table.
pub(crate) fn refuses(
    rt: &impl Abort,
    states: usize,
    lines: &[Move<MinuteRow>],
    changed: &[Move<MinuteRow>],
    why: Refusal<u16>,
) {
    let mut table = [GARBAGE; MOVES];
    let clause = clause_of(states, 0, &mut table, lines);
    for (place, line) in table.iter_mut().zip(changed.iter()) {
        *place = *line;
    }
    let before = table;
    let counts = clause.counts();
    let endings = clause.endings();
    let left = check_it(clause, &mut table);
    assert_eq!(rt; left.refusal, Some(why));
    assert_eq!(rt; left.counts, counts);
    assert!(rt; left.endings == endings);
    assert!(rt; table == before);
}
