// Rounds of separation: in which round each two states of a machine are separated.
ghost use Rattle.std.specs.Prelude.{◌≡◌, ◌+◌, ◌<◌, ◌≤◌, false, length};
ghost use Rattle.std.specs.List.{list_any};
ghost use Rattle.automata.specs.Limits.{most_states, most_rounds, mark_bytes};
ghost use Rattle.automata.specs.Rounds.{fit, some_fit};
ghost use Rattle.automata.specs.Running.{stray};
ghost use Rattle.tables.specs.Machines.{machine_of};
ghost use Rattle.reduction.specs.Marks.{in_round};
ghost use Rattle.reduction.specs.Rounds.{separates, NextMarks, RoundMarks};

use crate::marks::PairMarks;
use automata::limits::WORD_ENTRIES;
use automata::moves::Move;
use guards::algebra::Algebra;
use tables::machines::Machine;

// What makes a round of the one before.
#[derive(Drop)]
struct NextRound<'a, A: Algebra> {
    alg: &'a A,
    machine: &'a Machine<'a, A::Guard>,
    // The number of the round before.
    round: usize,
    ghost small: { round + 1 < most_rounds },
}

impl<'a, A: Algebra> NextRound<'a, A> {
    // Whether the two moves separate the states that they go from.
    fn separates(&self, marks: &PairMarks, first: &Move<A::Guard>, second: &Move<A::Guard>) -> bool
        requires inside { (stray most_states first.now ≡ false) × (stray most_states second.now ≡ false) }
        ensures { let s = self.now in result ≡ separates (A.model s.alg.now) marks.now s.round first.now second.now }
    {
        first.from != second.from
            && marks.is_unmarked(first.from, second.from)
            && marks.is_marked_in(first.to, second.to, self.round)
            && self
                .alg
                .sample(self.alg.meet(first.guard, second.guard))
                .is_some()
    }

    // Marks the states that the two moves go from, where the moves separate them; whether they do.
    fn mark_pair(
        &self,
        marks: &mut PairMarks,
        first: &Move<A::Guard>,
        second: &Move<A::Guard>,
    ) -> bool
        requires inside { (stray most_states first.now ≡ false) × (stray most_states second.now ≡ false) }
        ensures next { let s = self.now in let fits = fit (A.model s.alg.now) (in_round marks.old s.round) in
            NextMarks s.round (λ p q. fits p q first.now second.now) marks.old marks.new }
        ensures same { result ≡ false → marks.new ≡ marks.old }
    {
        let found = self.separates(marks, first, second);
        if found {
            marks.set(first.from, second.from, self.round + 1);
        }
        found
    }

    // Marks by the first move with each move of the machine; whether it marks any states.
    fn mark_by(&self, marks: &mut PairMarks, first: &Move<A::Guard>) -> bool
        requires inside { stray most_states first.now ≡ false }
        ensures next { let s = self.now in let fits = fit (A.model s.alg.now) (in_round marks.old s.round) in
            NextMarks s.round (λ p q. list_any (fits p q first.now) s.machine.now.moves.now) marks.old marks.new }
        ensures same { result ≡ false → marks.new ≡ marks.old }
    {
        let mut found = false;
        for second in self.machine.moves {
            found |= self.mark_pair(marks, first, second);
        }
        found
    }

    // Makes the round; whether it separates any states.
    fn mark(&self, marks: &mut PairMarks) -> bool
        ensures next { let s = self.now in let found = some_fit (A.model s.alg.now) s.machine.now.moves.now (in_round marks.old s.round) in
            NextMarks s.round found marks.old marks.new }
        ensures same { result ≡ false → marks.new ≡ marks.old }
    {
        let mut found = false;
        for first in self.machine.moves {
            found |= self.mark_by(marks, first);
        }
        found
    }
}

// Marks the round in which each two states of the machine are separated.
pub(crate) fn mark_rounds<'m, A: Algebra>(
    alg: &A,
    machine: &Machine<A::Guard>,
    bytes: &'m mut [u8],
) -> PairMarks<'m>
    requires { mark_bytes ≤ length bytes.old }
    ensures { RoundMarks (A.model alg.now) (machine_of machine.now) most_rounds result }
{
    let mut marks = PairMarks::new(machine.endings, bytes);
    for round in 0..WORD_ENTRIES {
        let next = NextRound {
            alg: &*alg,
            machine: &*machine,
            round,
        };
        if !next.mark(&mut marks) {
            return marks;
        }
    }
    marks
}
