// Running days on a rule, over minutes alone and over activity entries.
use crate::clauses::GARBAGE;
use automata::limits::MOVES;
use automata::moves::Move;
use automata::refusals::Refusal;
use guards::activity::{ACTIVITY, ActivityGuard};
use guards::algebra::Algebra;
use guards::minutes::MINUTES;
use guards::pair::Both;
use machines::clauses::Rule;
use std::test::Fail;

// What a new sheet's rule, turned over if asked, answers on the day, with the length of table that is shown to it.
fn answer(turned: bool, length: usize, day: &[u16]) -> Result<(usize, bool), Refusal<u16>> {
    let mut table = [GARBAGE; MOVES + 1];
    let rule = Rule::new_sheet(&MINUTES, &mut table)?;
    let rule = if turned { rule.turn(&MINUTES) } else { rule };
    let shown = length.min(table.len());
    let answer = rule.run(&MINUTES, &table[..shown], day);
    rule.end(&MINUTES);
    answer
}

#[test]
fn days_of_minutes(rt: HostRuntime) {
    assert_eq!(rt; answer(false, MOVES, &[]), Ok((0, true)));
    assert_eq!(rt; answer(true, MOVES, &[]), Ok((0, false)));
    assert_eq!(rt; answer(false, MOVES + 1, &[0, 1439, 7]), Ok((0, true)));
    assert_eq!(rt; answer(true, MOVES, &[0, 1439, 7]), Ok((0, false)));
    assert_eq!(rt;
        answer(false, MOVES, &[0, 1440, 7]),
        Err(Refusal::NoMove(1))
    );
    assert_eq!(rt; answer(false, 0, &[1440]), Err(Refusal::TooShort));
    assert_eq!(rt; answer(false, MOVES - 1, &[]), Err(Refusal::TooShort));
}

// A counted move that names no state is refused before the day is looked at.
#[test]
fn stray_moves(rt: HostRuntime) -> Result<(), Fail> {
    for (from, to) in [(0, 1), (1, 0), (99, 1000)] {
        let mut table = [GARBAGE; MOVES];
        let rule = match Rule::new_sheet(&MINUTES, &mut table) {
            Ok(rule) => rule,
            Err(why) => return Err(Fail::new("no sheet")),
        };
        table[0] = Move {
            from,
            guard: MINUTES.whole(),
            to,
        };
        let answer = rule.run(&MINUTES, &table, &[1440]);
        rule.end(&MINUTES);
        assert_eq!(rt; answer, Err(Refusal::StrayMove));
    }
    Ok(())
}

#[test]
fn days_of_activity_entries(rt: HostRuntime) -> Result<(), Fail> {
    let empty: Move<ActivityGuard> = Move {
        from: 0,
        guard: ACTIVITY.whole(),
        to: 0,
    };
    let mut table = [empty; MOVES];
    let rule = match Rule::new_sheet(&ACTIVITY, &mut table) {
        Ok(rule) => rule,
        Err(why) => return Err(Fail::new("no sheet")),
    };
    let driving = Both {
        first: 3,
        second: 600,
    };
    let wrong = Both {
        first: 32,
        second: 600,
    };
    let good = rule.run(&ACTIVITY, &table, &[driving, driving]);
    let bad = rule.run(&ACTIVITY, &table, &[driving, driving, wrong]);
    rule.end(&ACTIVITY);
    assert_eq!(rt; good, Ok((0, true)));
    assert_eq!(rt; bad, Err(Refusal::NoMove(2)));
    Ok(())
}
