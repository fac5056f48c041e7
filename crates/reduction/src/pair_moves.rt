// The moves of pairs of states: the meets that admit something of moves of a rule and a clause.
ghost use Rattle.std.specs.Prelude.{◌≡◌, position};
ghost use Rattle.std.specs.Iterator.{YieldsFirst, item_count};
ghost use Rattle.automata.specs.Product.{joins, met, pair_moves};

use automata::moves::Move;
use automata::pairs::{PairMove, StatePair};
use guards::algebra::Algebra;
use std::marker::Model;

// Whether the two moves go from the states of the pair, and their meet admits something.
fn is_joined<A: Algebra>(
    alg: &A,
    pair: StatePair,
    rule_line: &Move<A::Guard>,
    clause_line: &Move<A::Guard>,
) -> bool
    ensures { result ≡ joins (A.model alg.now) pair rule_line.now clause_line.now }
{
    rule_line.from == pair.rule
        && clause_line.from == pair.clause
        && alg
            .sample(alg.meet(rule_line.guard, clause_line.guard))
            .is_some()
}

// The place of the first of the clause's moves that joins the rule's move at the pair. The rule's move is copied, so that its guard
// is read once and not again beside each of the clause's.
fn first_joined<A: Algebra>(
    alg: &A,
    pair: StatePair,
    rule_line: &Move<A::Guard>,
    clause_moves: &[Move<A::Guard>],
) -> Option<usize>
    ensures { result ≡ position (joins (A.model alg.now) pair rule_line.now) clause_moves.now }
{
    let rule_line = *rule_line;
    if rule_line.from != pair.rule {
        return None;
    }
    clause_moves.iter().position(|clause_line| is_joined(alg, pair, &rule_line, clause_line))
}

// The meet of two moves, which leads to the pair that they lead to.
fn met<A: Algebra>(
    alg: &A,
    rule_line: &Move<A::Guard>,
    clause_line: &Move<A::Guard>,
) -> PairMove<A::Guard>
    ensures { result ≡ met (A.model alg.now) rule_line.now clause_line.now }
{
    PairMove {
        guard: alg.meet(rule_line.guard, clause_line.guard),
        to: StatePair {
            rule: rule_line.to,
            clause: clause_line.to,
        },
    }
}

// The moves of a pair that are left, by those of the rule and then those of the clause, in table order.
#[derive(Drop)]
pub struct PairMoves<'a, A: Algebra> {
    alg: &'a A,
    pair: StatePair,
    rule_left: &'a [Move<A::Guard>],
    // The clause's moves that are left for the first of the rule's.
    clause_left: &'a [Move<A::Guard>],
    clause_moves: &'a [Move<A::Guard>],
}

impl<'a, A: Algebra> Model for PairMoves<'a, A> {
    ghost use Rattle.std.specs.Prelude.{List};
    ghost use Rattle.automata.specs.declared.pairs.PairMove.{PairMove};
    ghost use Rattle.reduction.specs.PairMoves.{moves_left};

    ghost Value = { List (PairMove A.Guard) };

    ghost view = { λ s. moves_left (A.model s.alg.now) s.clause_moves.now s.pair s.rule_left.now s.clause_left.now };
}

impl<'a, A: Algebra> PairMoves<'a, A> {
    pub(crate) fn new(
        alg: &'a A,
        pair: StatePair,
        rule_moves: &'a [Move<A::Guard>],
        clause_moves: &'a [Move<A::Guard>],
    ) -> PairMoves<'a, A>
        ensures { result ≡ pair_moves (A.model alg.now) rule_moves.now clause_moves.now pair }
    {
        PairMoves {
            alg,
            pair,
            rule_left: rule_moves,
            clause_left: clause_moves,
            clause_moves,
        }
    }
}

impl<'a, A: Algebra> Iterator for PairMoves<'a, A> {
    type Item = PairMove<A::Guard>;

    ghost next_gives = { YieldsFirst (λ s. s) };

    ghost remaining = { item_count (λ s. s) };

    // Inlined, so that a search of pairs, which drops the guards, need not make them.
    #[inline(always)]
    fn next(&mut self) -> Option<PairMove<A::Guard>> {
        while let Some((rule_line, rule_later)) = self.rule_left.split_first() {
            if let Some(place) = first_joined(self.alg, self.pair, rule_line, self.clause_left) {
                let found = met(self.alg, rule_line, &self.clause_left[place]);
                self.clause_left = &self.clause_left[place + 1..];
                return Some(found);
            }
            self.rule_left = rule_later;
            self.clause_left = self.clause_moves;
        }
        None
    }
}
