// Clauses over minutes joined to a rule: how large the rule is then, which days it accepts, and what a refusal leaves.
use crate::checking::{clause_of, line};
use crate::clauses::{GARBAGE, whole_move};
use automata::joins::JoinBy;
use automata::limits::{MARKS, MOVES, PAIRS, PARTS};
use automata::moves::Move;
use automata::pairs::StatePair;
use automata::refusals::{Refusal, Refused};
use guards::algebra::Algebra;
use guards::minutes::{MINUTES, MinuteRow};
use machines::clauses::{CheckedClause, Rule, Unjoined};
use machines::work::WorkTables;
use tables::counts::Counts;

type Table = [Move<MinuteRow>; MOVES];

// The rule of a new sheet, over the tables of these tests; other tests have tables of other lengths and kinds.
fn new_rule(table: &mut Table) -> Rule {
    match Rule::new_sheet(&MINUTES, table) {
        Ok(rule) => rule,
        Err(_) => unreachable!(),
    }
}

// Joins a checked clause to the rule, with no rest lists and tables that are each lent for a time of their own; the rule as it is
// then, and why it was refused, if it was. The tests look at both, here and below, and each argument at its own place. It is
// generic, where the borrow check asks more than at one kind of guards.
fn join_checked<A: Algebra>(
    alg: &A,
    rule: Rule,
    table: &mut [Move<A::Guard>],
    way: JoinBy,
    clause: CheckedClause,
    clause_table: &[Move<A::Guard>],
    spare: &mut [Move<A::Guard>],
    marks: &mut [u8],
    pairs: &mut [StatePair],
) -> (Rule, Option<Refusal<A::Entry>>) {
    let mut work = WorkTables {
        spare,
        marks,
        parts: &mut [],
        others: &mut [],
        pairs,
    };
    match rule.join(alg, clause, way, table, clause_table, &mut work) {
        Ok(rule) => (rule, None),
        Err(Refused { value, why }) => {
            let Unjoined { rule, clause } = value;
            clause.discard(alg);
            (rule, Some(why))
        }
    }
}

// Checks the clause of the states, the ending and the lines and joins it to the rule. Each of the two calls has tables of its own, of
// which every place is filled.
fn join_lines(
    rule: Rule,
    table: &mut Table,
    way: JoinBy,
    states: usize,
    ending: usize,
    lines: &[Move<MinuteRow>],
) -> (Rule, Option<Refusal<u16>>) {
    let mut clause_table = [GARBAGE; MOVES];
    let mut spare = [whole_move(7, 7); MOVES];
    let mut marks = [7u8; MARKS];
    let mut parts = [GARBAGE.guard; PARTS];
    let mut others = [GARBAGE.guard; PARTS];
    let mut work = WorkTables {
        spare: &mut spare,
        marks: &mut marks,
        parts: &mut parts,
        others: &mut others,
        pairs: &mut [],
    };
    let clause = clause_of(states, ending, &mut clause_table, lines);
    match clause.check(&MINUTES, &mut clause_table, &mut work) {
        Ok(clause) => join_checked(
            &MINUTES,
            rule,
            table,
            way,
            clause,
            &clause_table,
            &mut [whole_move(7, 7); MOVES],
            &mut [7; MARKS],
            &mut [StatePair { rule: 7, clause: 7 }; PAIRS],
        ),
        Err(Refused { value, why }) => {
            value.discard(&MINUTES);
            (rule, Some(why))
        }
    }
}

// Days whose length is a multiple of `period`, at most 9: a cycle of whole moves.
fn join_lengths(
    rule: Rule,
    table: &mut Table,
    way: JoinBy,
    period: usize,
) -> (Rule, Option<Refusal<u16>>) {
    let mut lines = [whole_move(0, 0); 9];
    for (place, line) in lines.iter_mut().enumerate() {
        line.from = place;
        line.to = if place + 1 < period { place + 1 } else { 0 };
    }
    join_lines(rule, table, way, period, 0, &lines[..period.min(9)])
}

#[test]
fn day_lengths(rt: HostRuntime) {
    // The two periods, how many states the rule has then, and whether the second join is refused.
    let cases = [(7, 9, 63, None), (8, 9, 8, Some(Refusal::TooManyPairs))];
    for (first, second, states, refusal) in cases {
        let mut table = [GARBAGE; MOVES];
        let rule = new_rule(&mut table);
        let (rule, none) = join_lengths(rule, &mut table, JoinBy::Both, first);
        let before = table;
        let (rule, why) = join_lengths(rule, &mut table, JoinBy::Both, second);
        let counts = rule.counts();
        rule.end(&MINUTES);
        assert_eq!(rt; none, None);
        assert_eq!(rt; why, refusal);
        assert_eq!(rt;
            counts,
            Counts {
                states,
                moves: states,
            }
        );
        assert!(rt; (why == None) | (table == before));
    }
}

#[test]
fn days_by_each_way(rt: HostRuntime) {
    // Days whose first entry is before noon, joined with days whose first entry is from minute 600 to 800 on.
    let before_noon = [line(0, 0, 719, 1), whole_move(1, 1)];
    let around_noon = [line(0, 600, 800, 1), whole_move(1, 1)];
    // The way, and whether a day of one entry at minute 100, 700, 800 and 900 is accepted.
    let cases = [
        (JoinBy::Both, [false, true, false, false]),
        (JoinBy::Either, [true, true, true, false]),
        (JoinBy::Except, [true, false, false, false]),
    ];
    for (way, accepted) in cases {
        let mut table = [GARBAGE; MOVES];
        let rule = new_rule(&mut table);
        let (rule, _) = join_lines(rule, &mut table, JoinBy::Both, 2, 1, &before_noon);
        let (rule, _) = join_lines(rule, &mut table, way, 2, 1, &around_noon);
        let mut answers = [false; 4];
        for (answer, minute) in answers.iter_mut().zip([100, 700, 800, 900]) {
            *answer = match rule.run(&MINUTES, &table, &[minute]) {
                Ok((_, is_ending)) => is_ending,
                Err(_) => false,
            };
        }
        rule.end(&MINUTES);
        assert_eq!(rt; answers, accepted);
    }
}

#[test]
fn states_that_are_not_told_apart_are_one(rt: HostRuntime) {
    let lines = [
        line(0, 0, 719, 1),
        line(0, 720, 1439, 2),
        whole_move(1, 1),
        whole_move(2, 2),
    ];
    let mut table = [GARBAGE; MOVES];
    let rule = new_rule(&mut table);
    // Only state 1 is an ending here, so that no two states are alike.
    let (rule, _) = join_lines(rule, &mut table, JoinBy::Both, 3, 1, &lines);
    let counts = rule.counts();
    let rule = rule.turn(&MINUTES);
    // Nothing is accepted by both.
    let (rule, _) = join_lines(rule, &mut table, JoinBy::Both, 3, 1, &lines);
    let none = rule.counts();
    let ends = rule.endings().contains(0);
    rule.end(&MINUTES);
    assert_eq!(rt;
        counts,
        Counts {
            states: 3,
            moves: 4,
        }
    );
    assert_eq!(rt; none.states, 1);
    assert!(rt; !ends);
}
