// Telling states of a rule apart, over minutes: the refusals of a rule of one state.
use crate::clauses::GARBAGE;
use automata::limits::{MARKS, MOVES, WORD_ENTRIES};
use automata::refusals::Refusal;
use guards::minutes::MINUTES;
use machines::clauses::Rule;

// What a new sheet's rule answers for two states, and the first and the last entry of the word buffer, which held 7; each
// table and buffer is one longer than its least size, or one shorter if asked. Move 0 leads to the state `to`.
fn answer(
    to: usize,
    first: usize,
    second: usize,
    short: (bool, bool, bool),
) -> Result<(Result<usize, Refusal<u16>>, u16, u16), Refusal<u16>> {
    let mut table = [GARBAGE; MOVES + 1];
    let mut word = [7; WORD_ENTRIES + 1];
    let mut marks = [255; MARKS + 1];
    let rule = Rule::new_sheet(&MINUTES, &mut table)?;
    table[0].to = to;
    let moves = if short.0 { MOVES - 1 } else { MOVES + 1 };
    let entries = if short.1 {
        WORD_ENTRIES - 1
    } else {
        WORD_ENTRIES + 1
    };
    let bytes = if short.2 { MARKS - 1 } else { MARKS + 1 };
    let answer = rule.tell_apart(
        &MINUTES,
        &table[..moves],
        first,
        second,
        &mut word[..entries],
        &mut marks[..bytes],
    );
    rule.end(&MINUTES);
    Ok((answer, word[0], word[WORD_ENTRIES]))
}

const LONG: (bool, bool, bool) = (false, false, false);

#[test]
fn states_of_a_new_sheet(rt: HostRuntime) {
    assert_eq!(rt;
        answer(0, 0, 0, LONG),
        Ok((Err(Refusal::NotSeparated), 7, 7))
    );
    assert_eq!(rt;
        answer(0, 1, 0, LONG),
        Ok((Err(Refusal::NoSuchState(1)), 7, 7))
    );
    assert_eq!(rt;
        answer(0, 0, 64, LONG),
        Ok((Err(Refusal::NoSuchState(64)), 7, 7))
    );
    assert_eq!(rt;
        answer(0, 2, 1, LONG),
        Ok((Err(Refusal::NoSuchState(2)), 7, 7))
    );
}

// A stray move is refused before the states are looked at, and a short table or buffer before the moves.
#[test]
fn earlier_refusals(rt: HostRuntime) {
    assert_eq!(rt; answer(1, 5, 6, LONG), Ok((Err(Refusal::StrayMove), 7, 7)));
    assert_eq!(rt;
        answer(1, 0, 0, (true, false, false)),
        Ok((Err(Refusal::TooShort), 7, 7))
    );
    assert_eq!(rt;
        answer(0, 5, 6, (false, true, false)),
        Ok((Err(Refusal::TooShort), 7, 7))
    );
    assert_eq!(rt;
        answer(1, 5, 6, (false, false, true)),
        Ok((Err(Refusal::TooShort), 7, 7))
    );
}
