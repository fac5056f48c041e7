// The limits of checking a clause, over minutes alone: states, moves, rest lists and sizes.
use crate::checking::{Left, check_in, line, makes, refuses};
use crate::clauses::{GARBAGE, whole_move};
use automata::limits::{MARKS, MOVES, PARTS};
use automata::moves::Move;
use automata::refusals::Refusal;
use guards::minutes::{MINUTES, MinuteRow};
use machines::clauses::OpenClause;
use machines::work::WorkTables;
use std::process::Abort;
use tables::counts::Counts;

// Each line leads from the state of its place to the next.
fn row(lines: &mut [Move<MinuteRow>]) {
    for (state, place) in lines.iter_mut().enumerate() {
        *place = whole_move(state, state.saturating_add(1));
    }
}

// As many states as can be written: the sink is one more, where the last state needs it.
#[test]
fn states_in_a_row(rt: HostRuntime) {
    let mut written = [GARBAGE; 62];
    row(&mut written);
    let mut sunk = [GARBAGE; 64];
    row(&mut sunk);
    sunk[63] = whole_move(63, 63);
    makes(&rt, (63, 62, &written), (64, 62, &sunk));
    let mut complete = [GARBAGE; 63];
    row(&mut complete);
    complete[62] = whole_move(62, 62);
    makes(&rt, (63, 62, &complete), (63, 62, &complete));
}

// The moves are counted with the rest, here of one part, and the sink's own move.
#[test]
fn most_moves(rt: HostRuntime) {
    let whole = [whole_move(0, 0); MOVES];
    makes(&rt, (1, 0, &whole), (1, 0, &whole));
    let written = [line(0, 0, 1438, 0); MOVES];
    let mut checked = written;
    checked[MOVES - 2] = line(0, 1439, 1439, 1);
    checked[MOVES - 1] = whole_move(1, 1);
    makes(&rt, (1, 0, &written[..MOVES - 2]), (2, 0, &checked));
    refuses(&rt, 1, &written[..MOVES - 1], &[], Refusal::TooLarge);
    refuses(&rt, 1, &written, &[], Refusal::TooLarge);
}

// Moves of single minutes, each two after the one before; minutes step, and places do not.
fn every_second(lines: &mut [Move<MinuteRow>], from: usize, first: u16, to: usize) {
    let mut minute = first;
    for place in lines.iter_mut() {
        *place = line(from, minute, minute, to);
        minute = minute.saturating_add(2);
    }
}

// The first 255 odd minutes, then the even ones.
fn odd_then_even(rt: &impl Abort, lines: &mut [Move<MinuteRow>]) {
    assert!(rt; 255 <= lines.len());
    let (odd, even) = lines.split_at_mut(255);
    every_second(odd, 0, 1, 0);
    every_second(even, 0, 0, 1);
}

#[test]
fn longest_rest(rt: HostRuntime) {
    let mut written = [GARBAGE; 255];
    every_second(&mut written, 0, 1, 0);
    let mut checked = [GARBAGE; 512];
    odd_then_even(&rt, &mut checked);
    checked[510] = line(0, 510, 1439, 1);
    checked[511] = whole_move(1, 1);
    makes(&rt, (1, 0, &written), (2, 0, &checked));
    let mut longer = [GARBAGE; 256];
    every_second(&mut longer, 0, 1, 0);
    refuses(&rt, 1, &longer, &[], Refusal::TooLarge);
}

// A rest may be too long at any stage, but that of an unreached state is not made.
#[test]
fn stages_of_a_rest(rt: HostRuntime) {
    let mut lines = [GARBAGE; 257];
    every_second(&mut lines, 0, 1, 0);
    lines[256] = whole_move(0, 0);
    refuses(&rt, 1, &lines, &[], Refusal::TooLarge);
    lines[0] = whole_move(0, 0);
    makes(&rt, (1, 0, &lines), (1, 0, &lines));
    every_second(&mut lines, 1, 1, 1);
    lines[256] = whole_move(0, 0);
    makes(&rt, (2, 0, &lines), (1, 0, &[whole_move(0, 0)]));
}

// What a check of a clause without moves leaves, with lengths of table, spare table, marks and part lists.
fn check_cut(rt: &impl Abort, table: &mut [Move<MinuteRow>], lengths: [usize; 5]) -> Left {
    let [
        table_length,
        spare_length,
        marks_length,
        parts_length,
        others_length,
    ] = lengths;
    let mut spare = [GARBAGE; MOVES + 1];
    assert!(rt; spare_length <= spare.len());
    let spare = &mut spare[..spare_length];
    let mut marks = [7u8; MARKS + 1];
    assert!(rt; marks_length <= marks.len());
    let marks = &mut marks[..marks_length];
    let mut parts = [GARBAGE.guard; PARTS + 1];
    assert!(rt; parts_length <= parts.len());
    let parts = &mut parts[..parts_length];
    let mut others = [GARBAGE.guard; PARTS + 1];
    assert!(rt; others_length <= others.len());
    let others = &mut others[..others_length];
    assert!(rt; table_length <= table.len());
    let table = &mut table[..table_length];
    let clause = OpenClause::open(&MINUTES);
    let mut work = WorkTables {
        spare,
        marks,
        parts,
        others,
        pairs: &mut [],
    };
    check_in(clause, table, &mut work)
}

// The check passes, or is refused as too short and leaves clause and table.
fn sizes_fit(rt: &impl Abort, lengths: [usize; 5], fit: bool) {
    let mut table = [GARBAGE; MOVES + 1];
    let left = check_cut(rt, &mut table, lengths);
    let mut wanted = [GARBAGE; MOVES + 1];
    let Counts { states, moves } = left.counts;
    if fit {
        wanted[0] = whole_move(0, 1);
        wanted[1] = whole_move(1, 1);
        assert_eq!(rt; (left.refusal, states, moves), (None, 2, 2));
    } else {
        assert_eq!(rt;
            (left.refusal, states, moves),
            (Some(Refusal::TooShort), 1, 0)
        );
    }
    assert!(rt; table == wanted);
}

#[test]
fn least_sizes(rt: HostRuntime) {
    let exact = [MOVES, MOVES, MARKS, PARTS, PARTS];
    sizes_fit(&rt, exact, true);
    // Each size in turn is one place of a copy.
    for place in 0..5 {
        let mut lengths = exact;
        lengths[place] = exact[place] + 1;
        sizes_fit(&rt, lengths, true);
        lengths[place] = exact[place] - 1;
        sizes_fit(&rt, lengths, false);
        lengths[place] = 0;
        sizes_fit(&rt, lengths, false);
    }
}
