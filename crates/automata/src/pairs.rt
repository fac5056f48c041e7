// Pairs of states: what a join's product goes through.

// A state of the rule beside a state of the clause.
#[derive(Clone, Copy, PartialEq, Eq, Debug)]
pub struct StatePair {
    pub rule: usize,
    pub clause: usize,
}

// A move of a pair: a guard, and the pair to which it leads.
#[derive(Clone, Copy, PartialEq, Eq, Debug)]
pub struct PairMove<G> {
    pub guard: G,
    pub to: StatePair,
}
