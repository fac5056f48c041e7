// The short calls on a sheet, over minutes alone.
use automata::limits::{MOVES, WRITTEN_STATES};
use automata::moves::Move;
use automata::refusals::{Refusal, Refused};
use guards::algebra::Algebra;
use guards::minutes::{MINUTES, MinuteRow};
use machines::clauses::{OpenClause, Rule};
use tables::counts::Counts;

// A move of numbers that make no guard, between states that no sheet has.
pub(crate) const GARBAGE: Move<MinuteRow> = Move {
    from: 99,
    guard: MinuteRow { first: 9, last: 1 },
    to: 1000,
};

pub(crate) fn whole_move(from: usize, to: usize) -> Move<MinuteRow> {
    Move {
        from,
        guard: MINUTES.whole(),
        to,
    }
}

// The counts of a new sheet and whether its states 0 and 1 are endings.
fn try_sheet(table: &mut [Move<MinuteRow>]) -> Result<(Counts, bool, bool), Refusal<u16>> {
    let rule = Rule::new_sheet(&MINUTES, table)?;
    let counts = rule.counts();
    let endings = rule.endings();
    rule.end(&MINUTES);
    Ok((counts, endings.contains(0), endings.contains(1)))
}

// A new sheet asks for 1,024 places, writes the first and leaves the others. A refusal is told with its number.
#[test]
fn new_sheet(rt: HostRuntime) {
    let fresh = Counts {
        states: 1,
        moves: 1,
    };
    for (length, wanted, first) in [
        (0, Err((Refusal::TooShort, 1)), GARBAGE),
        (MOVES - 1, Err((Refusal::TooShort, 1)), GARBAGE),
        (MOVES, Ok((fresh, true, false)), whole_move(0, 0)),
        (MOVES + 1, Ok((fresh, true, false)), whole_move(0, 0)),
    ] {
        let mut table = [GARBAGE; MOVES + 1];
        assert!(rt; length <= table.len());
        let sheet = try_sheet(&mut table[..length]);
        assert_eq!(rt; sheet.map_err(|why| (why, why.number())), wanted);
        assert_eq!(rt; table[0], first);
        assert_eq!(rt; table[1], GARBAGE);
    }
}

// A clause of 63 states, and how many of the states asked for were refused as too many, with 2.
fn full_clause() -> (OpenClause, usize) {
    let mut clause = OpenClause::open(&MINUTES);
    let mut refused = 0usize;
    for _ in 1..70 {
        clause = match clause.add(&MINUTES) {
            Ok((clause, _)) => clause,
            Err(Refused { value, why }) => {
                if (why == Refusal::TooManyStates) & (why.number() == 2) {
                    refused = refused.saturating_add(1);
                }
                value
            }
        };
    }
    (clause, refused)
}

#[test]
fn adding(rt: HostRuntime) {
    let (clause, refused) = full_clause();
    let counts = clause.counts();
    clause.discard(&MINUTES);
    assert_eq!(rt; counts.states, WRITTEN_STATES);
    assert_eq!(rt; refused, 7);
}

// Whether the state is an ending after it was marked twice, or what the refusal tells.
fn mark_twice(state: usize) -> Result<bool, Refusal<u16>> {
    let (clause, _) = full_clause();
    match clause.mark(&MINUTES, state) {
        Ok(clause) => match clause.mark(&MINUTES, state) {
            Ok(clause) => {
                let endings = clause.endings();
                clause.discard(&MINUTES);
                Ok(endings.contains(state))
            }
            Err(Refused { value, why }) => {
                value.discard(&MINUTES);
                Err(why)
            }
        },
        Err(Refused { value, why }) => {
            value.discard(&MINUTES);
            Err(why)
        }
    }
}

#[test]
fn marking(rt: HostRuntime) {
    assert_eq!(rt; mark_twice(0), Ok(true));
    assert_eq!(rt; mark_twice(62), Ok(true));
    assert_eq!(rt; mark_twice(63), Err(Refusal::NoSuchState(63)));
    assert_eq!(rt; mark_twice(64), Err(Refusal::NoSuchState(64)));
    assert_eq!(rt;
        mark_twice(usize::MAX),
        Err(Refusal::NoSuchState(usize::MAX))
    );
}

// The moves of a clause of one state after a move was written, or what the refusal tells.
fn write_one(table: &mut [Move<MinuteRow>], line: Move<MinuteRow>) -> Result<usize, Refusal<u16>> {
    match OpenClause::open(&MINUTES).write(&MINUTES, table, line) {
        Ok(clause) => {
            let counts = clause.counts();
            clause.discard(&MINUTES);
            Ok(counts.moves)
        }
        Err(Refused { value, why }) => {
            value.discard(&MINUTES);
            Err(why)
        }
    }
}

// The table's length comes before the states, and from before to; an empty guard may be written.
#[test]
fn writing(rt: HostRuntime) {
    let empty = Move {
        from: 0,
        guard: MinuteRow { first: 9, last: 1 },
        to: 0,
    };
    for (length, line, wanted, first) in [
        (0, GARBAGE, Err(Refusal::TooShort), GARBAGE),
        (MOVES - 1, GARBAGE, Err(Refusal::TooShort), GARBAGE),
        (MOVES, GARBAGE, Err(Refusal::NoSuchState(99)), GARBAGE),
        (
            MOVES,
            whole_move(0, 1),
            Err(Refusal::NoSuchState(1)),
            GARBAGE,
        ),
        (MOVES, whole_move(0, 0), Ok(1), whole_move(0, 0)),
        (MOVES + 1, empty, Ok(1), empty),
    ] {
        let mut table = [GARBAGE; MOVES + 1];
        assert!(rt; length <= table.len());
        assert_eq!(rt; write_one(&mut table[..length], line), wanted);
        assert_eq!(rt; table[0], first);
        assert_eq!(rt; table[1], GARBAGE);
    }
}

// How many of 1,025 moves were written, and how many refused by the full table, with 4.
fn fill(table: &mut [Move<MinuteRow>]) -> (usize, usize) {
    let mut clause = OpenClause::open(&MINUTES);
    let mut refused = 0usize;
    for _ in 0..MOVES + 1 {
        clause = match clause.write(&MINUTES, table, whole_move(0, 0)) {
            Ok(clause) => clause,
            Err(Refused { value, why }) => {
                if (why == Refusal::TableFull) & (why.number() == 4) {
                    refused = refused.saturating_add(1);
                }
                value
            }
        };
    }
    let counts = clause.counts();
    clause.discard(&MINUTES);
    (counts.moves, refused)
}

#[test]
fn full_table(rt: HostRuntime) {
    let mut table = [GARBAGE; MOVES + 1];
    assert_eq!(rt; fill(&mut table), (MOVES, 1));
    assert_eq!(rt; table[MOVES - 1], whole_move(0, 0));
    assert_eq!(rt; table[MOVES], GARBAGE);
}
