// The algebra of guards: which entries each guard admits, and five functions that keep to it.
ghost use Rattle.std.specs.Prelude.{◌≡◌, [], ◌∷◌};
ghost use Rattle.std.specs.Iterator.{YieldsFirst, item_count};
ghost use Rattle.std.specs.List.{slice_get};
ghost use Rattle.guards.specs.Algebra.{Model, Laws, numbered};

use std::marker::Model;

// A kind of entry, a kind of guard, and the meaning of each guard as a set of entries.
pub trait Algebra {
    type Entry: Copy;

    type Guard: Copy;

    // What the functions answer, and what a guard admits.
    ghost model: { Self → Model Self.Entry Self.Guard };

    // The guard that admits the whole domain.
    fn whole(&self) -> Self::Guard
        ensures { result ≡ (model self.now).whole };

    // Whether the guard admits the entry.
    fn admits(&self, guard: Self::Guard, of: Self::Entry) -> bool
        ensures { result ≡ (model self.now).admits guard of };

    // The guard that admits what both admit.
    fn meet(&self, a: Self::Guard, b: Self::Guard) -> Self::Guard
        ensures { result ≡ (model self.now).meet a b };

    // An entry that the guard admits, if it admits any.
    fn sample(&self, guard: Self::Guard) -> Option<Self::Entry>
        ensures { result ≡ (model self.now).sample guard };

    // The part of that number, from 0, of `a` without `b`; None past the last. Parts are asked for by number, since an algebra can
    // hand out no iterator of its own kind: a trait's types take no lifetime. `Parts` goes through them.
    fn rest(&self, a: Self::Guard, b: Self::Guard, part: usize) -> Option<Self::Guard>
        ensures { result ≡ slice_get ((model self.now).parts a b) part };

    // The model keeps the laws: everything above an algebra is proved from these alone.
    ghost lawful: { (s : Self) → Laws (model s) };
}

// The part of that number where the rest is one guard.
pub(crate) fn only<G: Copy>(guard: G, part: usize) -> Option<G>
    ensures { result ≡ slice_get (guard ∷ []) part }
{
    (part == 0).then_some(guard)
}

// The parts of `a` without `b`, in order: as many as a usize numbers.
#[derive(Drop)]
pub struct Parts<'a, A: Algebra> {
    alg: &'a A,
    a: A::Guard,
    b: A::Guard,
    // The number of the next part; None past the last number.
    next: Option<usize>,
}

impl<'a, A: Algebra> Model for Parts<'a, A> {
    ghost use Rattle.std.specs.Prelude.{List};
    ghost use Rattle.guards.specs.Algebra.{numbered, left_from};

    ghost Value = { List A.Guard };

    ghost view = { λ s. left_from (numbered ((A.model s.alg.now).parts s.a s.b)) s.next };
}

impl<'a, A: Algebra> Parts<'a, A> {
    pub fn new(alg: &'a A, a: A::Guard, b: A::Guard) -> Parts<'a, A>
        ensures { result ≡ numbered ((A.model alg.now).parts a b) }
    {
        Parts {
            alg,
            a,
            b,
            next: Some(0),
        }
    }
}

impl<'a, A: Algebra> Iterator for Parts<'a, A> {
    type Item = A::Guard;

    ghost next_gives = { YieldsFirst (λ s. s) };

    ghost remaining = { item_count (λ s. s) };

    fn next(&mut self) -> Option<A::Guard> {
        let number = self.next?;
        self.next = number.checked_add(1);
        self.alg.rest(self.a, self.b, number)
    }
}
