// Steps of words: the entries on which two states lead to two that an earlier round separates.
ghost use Rattle.std.specs.Prelude.{◌≡◌};
ghost use Rattle.guards.specs.Lists.{first_some};
ghost use Rattle.automata.specs.Telling.{first_step, step_by};
ghost use Rattle.reduction.specs.Marks.{in_round};

use crate::marks::PairMarks;
use automata::moves::Move;
use automata::telling::WordStep;
use guards::algebra::Algebra;

// What a step from two states, the lower first, to two that the round separates is found by.
#[derive(Drop)]
pub struct Steps<'a, 'm, A: Algebra> {
    pub alg: &'a A,
    pub moves: &'a [Move<A::Guard>],
    pub marks: &'a PairMarks<'m>,
    pub lower: usize,
    pub higher: usize,
    pub round: usize,
}

impl<'a, 'm, A: Algebra> Steps<'a, 'm, A> {
    // The step on the sample of the two moves' meet, where they make one.
    fn by_moves(
        &self,
        first: &Move<A::Guard>,
        second: &Move<A::Guard>,
    ) -> Option<WordStep<A::Entry>>
        ensures { let s = self.now in
            let step = step_by (A.model s.alg.now) (in_round s.marks.now s.round) s.lower s.higher in
            result ≡ step first.now second.now }
    {
        let fits = first.from == self.lower
            && second.from == self.higher
            && self.marks.round(first.to, second.to) == Some(self.round);
        if !fits {
            return None;
        }
        let sample = self.alg.sample(self.alg.meet(first.guard, second.guard))?;
        Some(WordStep {
            sample,
            left: first.to,
            right: second.to,
        })
    }

    // The first step by the lower state's move.
    fn by_move(&self, first: &Move<A::Guard>) -> Option<WordStep<A::Entry>>
        ensures { let s = self.now in
            let step = step_by (A.model s.alg.now) (in_round s.marks.now s.round) s.lower s.higher in
            result ≡ first_some (λ _ v. step first.now v) 0 s.moves.now }
    {
        self.moves
            .iter()
            .find_map(|second| self.by_moves(first, second))
    }

    // The first step, by the moves of the lower state and then those of the higher.
    pub(crate) fn first(&self) -> Option<WordStep<A::Entry>>
        ensures { let s = self.now in
            result ≡ first_step (A.model s.alg.now) s.moves.now (in_round s.marks.now s.round) s.lower s.higher }
    {
        self.moves.iter().find_map(|first| self.by_move(first))
    }
}
