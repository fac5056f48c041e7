// Checking a clause on examples, over minutes alone: what it makes of the moves, and what it refuses for them.
use crate::checking::{NO_STATE, line, makes, refuses};
use crate::clauses::whole_move;
use automata::refusals::Refusal;

// A sink takes what no move admits; moves with an empty guard are dropped.
#[test]
fn clauses_without_moves(rt: HostRuntime) {
    let sunk = [whole_move(0, 1), whole_move(1, 1)];
    let empty = [line(0, 9, 1, 1), line(0, 9, 1, 0), line(1, 9, 1, 0)];
    for (written, checked) in [(NO_STATE, NO_STATE), (0, 0), (1, NO_STATE)] {
        makes(&rt, (2, written, &[]), (2, checked, &sunk));
        makes(&rt, (2, written, &empty), (2, checked, &sunk));
    }
    makes(&rt, (1, 0, &[]), (2, 0, &sunk));
    makes(&rt, (1, NO_STATE, &[]), (2, NO_STATE, &sunk));
}

fn clash(first: usize, second: usize, sample: u16) -> Refusal<u16> {
    Refusal::Clash {
        first,
        second,
        sample,
    }
}

// Two moves from one state clash where they lead to different states and share an entry; the lowest pair is told.
#[test]
fn clashes(rt: HostRuntime) {
    let shared = [line(0, 0, 600, 1), line(0, 600, 700, 2)];
    refuses(&rt, 3, &shared, &[], clash(0, 1, 600));
    let two_pairs = [
        line(0, 0, 10, 0),
        line(0, 20, 30, 1),
        line(0, 25, 40, 0),
        line(0, 5, 7, 1),
    ];
    refuses(&rt, 2, &two_pairs, &[], clash(0, 3, 5));
    let unreached = [line(1, 0, 600, 1), line(1, 600, 700, 2)];
    refuses(&rt, 3, &unreached, &[], clash(0, 1, 600));
}

#[test]
fn no_clashes(rt: HostRuntime) {
    makes(
        &rt,
        (3, 2, &[line(0, 0, 599, 1), line(0, 600, 700, 2)]),
        (
            4,
            2,
            &[
                line(0, 0, 599, 1),
                line(0, 600, 700, 2),
                line(0, 701, 1439, 3),
                whole_move(1, 3),
                whole_move(2, 3),
                whole_move(3, 3),
            ],
        ),
    );
    let same_state = [line(0, 0, 600, 0), line(0, 600, 1439, 0)];
    makes(&rt, (1, 0, &same_state), (1, 0, &same_state));
}

// Unreached states are dropped, and the others numbered breadth first along the moves in table order.
#[test]
fn new_numbers(rt: HostRuntime) {
    let written = [
        whole_move(3, 0),
        line(0, 0, 99, 2),
        line(0, 100, 1439, 1),
        whole_move(2, 2),
        whole_move(1, 0),
    ];
    let checked = [
        line(0, 0, 99, 1),
        line(0, 100, 1439, 2),
        whole_move(1, 1),
        whole_move(2, 0),
    ];
    for (old, new) in [(0, 0), (1, 2), (2, 1), (3, NO_STATE)] {
        makes(&rt, (4, old, &written), (3, new, &checked));
    }
}

// A counted move that names no state is refused before a clash is looked for.
#[test]
fn stray_moves(rt: HostRuntime) {
    let lines = [line(0, 0, 600, 1), line(0, 600, 700, 2)];
    for (from, to) in [(0, 3), (3, 0), (0, 9), (99, 1000)] {
        refuses(&rt, 3, &lines, &[whole_move(from, to)], Refusal::StrayMove);
        refuses(
            &rt,
            3,
            &lines,
            &[lines[0], whole_move(from, to)],
            Refusal::StrayMove,
        );
    }
}
