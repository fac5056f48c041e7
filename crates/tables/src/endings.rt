// Endings: the accepting states of a machine.
ghost use Rattle.std.specs.Prelude.{◌≡◌, ℕ, ◌-◌, ◌^◌, ◌<◌, ◌≤◌, Bool, false, not, ◌||◌, map, length, if◌then◌else◌, ◌==◌, nat_lt, slice_index_or};
ghost use Rattle.tables.specs.Endings.{holds};

use automata::limits::STATES;

// A set of states below the limit, a bit for each.
#[derive(Clone, Copy, PartialEq, Eq, Debug)]
pub struct Endings {
    mask: u64,
}

// The number whose one bit is the state's.
fn bit(state: usize) -> u64
    requires { state < 64 }
    ensures { result ≡ 2 ^ state }
{
    1 << state
}

// The number whose bits are those below the count.
fn ones(count: usize) -> u64
    requires { count ≤ 64 }
    ensures { result ≡ 2 ^ count - 1 }
{
    if count < STATES {
        (1 << count) - 1
    } else {
        u64::MAX
    }
}

impl Endings {
    // No state at all.
    pub fn none() -> Endings
        ensures { (k : ℕ) → holds result k ≡ false }
    {
        Endings { mask: 0 }
    }

    // Whether the state is in the set.
    pub fn contains(self, state: usize) -> bool
        ensures { result ≡ holds self state }
    {
        state < STATES && self.mask & bit(state) != 0
    }

    // The set with that state too.
    pub fn insert(self, state: usize) -> Endings
        requires { state < 64 }
        ensures { (k : ℕ) → holds result k ≡ (holds self k || k == state) }
    {
        Endings {
            mask: self.mask | bit(state),
        }
    }

    // The states below the count that are not in the set; the others as they are.
    pub fn complement(self, count: usize) -> Endings
        requires { count ≤ 64 }
        ensures { (k : ℕ) → holds result k ≡ (if nat_lt k count then not (holds self k) else holds self k) }
    {
        Endings {
            mask: self.mask ^ ones(count),
        }
    }

    // The places of the items that pass the test.
    pub fn places<T: Copy, F: Fn(T) -> bool>(items: &[T], test: F) -> Endings
        ghost passes: { T → Bool }
        requires few { length items.now ≤ 64 }
        requires callable { F.IsAlwaysCallable test }
        requires computes { (x : T) (b : Bool) → F.post test x b → b ≡ passes x }
        ensures { (k : ℕ) → holds result k ≡ slice_index_or (map passes items.now) k false }
    {
        let mut places = Endings::none();
        for (place, item) in items.iter().enumerate() {
            if test(*item) {
                places = places.insert(place);
            }
        }
        places
    }

    // The places of the order whose states are in the set.
    pub fn reordered(self, order: &[usize]) -> Endings
        requires { length order.now ≤ 64 }
        ensures { (k : ℕ) → holds result k ≡ slice_index_or (map (holds self) order.now) k false }
    {
        Endings::places(order, |state| self.contains(state))
    }
}
