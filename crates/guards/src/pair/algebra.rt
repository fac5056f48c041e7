// The algebra of pairs: admission, whole and meet go side by side.
ghost use Rattle.std.specs.Prelude.{◌≡◌, min, length};
ghost use Rattle.guards.specs.Pair.{pair_model};
ghost use Rattle.guards.specs.PairLaws.{pair_laws};

use super::{Both, Pair};
use crate::algebra::Algebra;

// How many parts `a` without `b` has, or `most` where there are more. One by one, since a number past the last part is the dearest
// to ask for where pairs stand within pairs.
fn count_parts<A: Algebra>(alg: &A, a: A::Guard, b: A::Guard, most: usize) -> usize
    ensures { result ≡ min (length ((A.model alg.now).parts a b)) most }
{
    for number in 0..most {
        if alg.rest(a, b, number).is_none() {
            return number;
        }
    }
    most
}

impl<L: Algebra, R: Algebra> Algebra for Pair<L, R> {
    type Entry = Both<L::Entry, R::Entry>;

    type Guard = Both<L::Guard, R::Guard>;

    ghost model = { λ s. pair_model (L.Algebra.model s.first) (R.Algebra.model s.second) };

    ghost lawful = { λ s. pair_laws (L.Algebra.lawful s.first) (R.Algebra.lawful s.second) };

    fn whole(&self) -> Self::Guard {
        Both {
            first: self.first.whole(),
            second: self.second.whole(),
        }
    }

    fn admits(&self, guard: Self::Guard, of: Self::Entry) -> bool {
        self.first.admits(guard.first, of.first) && self.second.admits(guard.second, of.second)
    }

    fn meet(&self, a: Self::Guard, b: Self::Guard) -> Self::Guard {
        Both {
            first: self.first.meet(a.first, b.first),
            second: self.second.meet(a.second, b.second),
        }
    }

    fn sample(&self, guard: Self::Guard) -> Option<Self::Entry> {
        let first = self.first.sample(guard.first)?;
        let second = self.second.sample(guard.second)?;
        Some(Both { first, second })
    }

    // Each part of the first side beside the second side of `a`, then the meet of the first sides beside each part of the second.
    // The part is asked for by its number in its run, so that what stands before it costs no more than a count. Inlined, since what
    // is read off both guards stays the same from part to part.
    #[inline(always)]
    fn rest(&self, a: Self::Guard, b: Self::Guard, part: usize) -> Option<Self::Guard> {
        self.sample(a)?;
        if let Some(first) = self.first.rest(a.first, b.first, part) {
            return Some(Both {
                first,
                second: a.second,
            });
        }
        let met = self.first.meet(a.first, b.first);
        self.first.sample(met)?;
        let firsts = count_parts(&self.first, a.first, b.first, part);
        let second = self.second.rest(a.second, b.second, part - firsts)?;
        Some(Both { first: met, second })
    }
}
