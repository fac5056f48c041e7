// Clashes: two moves that lead from one state to different states on a common entry.
ghost use Rattle.std.specs.Prelude.{◌≡◌, ◌+◌, drop};
ghost use Rattle.automata.specs.Clashes.{clash, second_clash, lowest_clash, Lowest};

use automata::moves::Move;
use guards::algebra::Algebra;

// An entry that both moves admit, if they lead from one state to different states.
fn clash_of<A: Algebra>(
    alg: &A,
    first: &Move<A::Guard>,
    second: &Move<A::Guard>,
) -> Option<A::Entry>
    ensures { result ≡ clash (A.model alg.now) first.now second.now }
{
    if first.from == second.from && first.to != second.to {
        alg.sample(alg.meet(first.guard, second.guard))
    } else {
        None
    }
}

// The first move from place `start` on that clashes with the given one, by its place, and the entry that both admit.
fn second_clash<A: Algebra>(
    alg: &A,
    first: &Move<A::Guard>,
    moves: &[Move<A::Guard>],
    start: usize,
) -> Option<(usize, A::Entry)>
    ensures { result ≡ second_clash (A.model alg.now) first.now start (drop start moves.now) }
{
    moves.iter().enumerate().skip(start).find_map(|(place, second)| {
        let sample = clash_of(alg, first, second)?;
        Some((place, sample))
    })
}

// The clash of the lowest first place, and of the lowest second place with that, with the entry that both moves admit.
pub fn lowest_clash<A: Algebra>(
    alg: &A,
    moves: &[Move<A::Guard>],
) -> Option<(usize, usize, A::Entry)>
    ensures value { result ≡ lowest_clash (A.model alg.now) moves.now }
    ensures lowest { Lowest (A.model alg.now) moves.now result }
{
    moves.iter().enumerate().find_map(|(place, first)| {
        let (second, sample) = second_clash(alg, first, moves, place + 1)?;
        Some((place, second, sample))
    })
}
