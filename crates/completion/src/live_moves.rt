// Live moves: those that admit something.
ghost use Rattle.std.specs.Prelude.{◌≡◌, filter};
ghost use Rattle.std.specs.Iterator.{YieldsFirst, item_count};
ghost use Rattle.automata.specs.Checking.{is_live};

use automata::moves::Move;
use guards::algebra::Algebra;
use std::marker::Model;
use std::slice;

// Whether the move goes from the state and admits something.
fn is_live<A: Algebra>(alg: &A, line: &Move<A::Guard>, state: usize) -> bool
    ensures { result ≡ is_live (A.model alg.now) state line.now }
{
    line.from == state && alg.sample(line.guard).is_some()
}

// The live moves of a state, in table order. Clauses see those that are left.
#[derive(Drop)]
pub struct LiveMoves<'a, A: Algebra> {
    alg: &'a A,
    state: usize,
    lines: slice::Iter<'a, Move<A::Guard>>,
}

impl<'a, A: Algebra> Model for LiveMoves<'a, A> {
    ghost use Rattle.std.specs.Prelude.{List, filter};
    ghost use Rattle.automata.specs.Checking.{is_live};
    ghost use Rattle.automata.specs.declared.moves.Move.{Move};

    ghost Value = { List (Move A.Guard) };

    ghost view = { λ s. filter (is_live (A.model s.alg.now) s.state) s.lines.rest.now };
}

impl<'a, A: Algebra> LiveMoves<'a, A> {
    pub(crate) fn new(alg: &'a A, moves: &'a [Move<A::Guard>], state: usize) -> LiveMoves<'a, A>
        ensures { result ≡ filter (is_live (A.model alg.now) state) moves.now }
    {
        LiveMoves {
            alg,
            state,
            lines: moves.iter(),
        }
    }
}

impl<'a, A: Algebra> Iterator for LiveMoves<'a, A> {
    type Item = Move<A::Guard>;

    ghost next_gives = { YieldsFirst (λ s. s) };

    ghost remaining = { item_count (λ s. s) };

    fn next(&mut self) -> Option<Move<A::Guard>> {
        let (alg, state) = (self.alg, self.state);
        self.lines.find(|line| is_live(alg, *line, state)).copied()
    }
}
