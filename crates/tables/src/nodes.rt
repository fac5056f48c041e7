// Nodes that a search goes through, each with a place of its own among the marks.
ghost use Rattle.std.specs.Prelude.{◌≡◌, ℕ, ◌<◌, Bool};
ghost use Rattle.automata.specs.Limits.{most_states, mark_bytes};
ghost use Rattle.automata.specs.Search.{Tells};
ghost use Rattle.tables.specs.Nodes.{pair_place};

use automata::limits::STATES;
use automata::pairs::StatePair;

// What a search goes through: states, or pairs of states.
pub trait Node: Copy {
    // Whether two nodes are the same.
    ghost same: { Self → Self → Bool };

    // Where the mark of a node stands.
    ghost place: { Self → ℕ };

    // The node has a mark.
    ghost inside: { Self → Type 0 };

    fn place(self) -> usize
        requires { inside self }
        ensures { result ≡ place self };

    ghost tells: { Tells same };

    ghost own: { (x : Self) (y : Self) → inside x → inside y → place x ≡ place y → x ≡ y };

    ghost marked: { (x : Self) → inside x → place x < mark_bytes };
}

// A state.
impl Node for usize {
    ghost use Rattle.std.specs.Prelude.{nat_eq, ◌<◌};
    ghost use Rattle.automata.specs.Limits.{most_states};
    ghost use Rattle.tables.specs.Nodes.{state_tells, state_marked};

    ghost same = { nat_eq };

    ghost place = { λ p. p };

    ghost inside = { λ p. p < most_states };

    ghost tells = { state_tells };

    ghost own = { λ x y i j e. e };

    ghost marked = { state_marked };

    fn place(self) -> usize {
        self
    }
}

// A pair of states, row by row.
impl Node for StatePair {
    ghost use Rattle.automata.specs.Product.{same_pair};
    ghost use Rattle.tables.specs.Nodes.{pair_place, PairInside, same_pair_tells, pair_own, pair_marked};

    ghost same = { same_pair };

    ghost place = { λ x. pair_place x.rule x.clause };

    ghost inside = { PairInside };

    ghost tells = { same_pair_tells };

    ghost own = { pair_own };

    ghost marked = { pair_marked };

    fn place(self) -> usize {
        pair_place(self.rule, self.clause)
    }
}

// Where the mark of two states stands.
pub fn pair_place(p: usize, q: usize) -> usize
    requires { (p < most_states) × (q < most_states) }
    ensures is { result ≡ pair_place p q }
    ensures within { result < mark_bytes }
{
    p * STATES + q
}
