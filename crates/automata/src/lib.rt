// What the theory of machines and its code share: moves, pairs of states, the ways of joining, refusals, steps of words and limits.
#![tactic(auto)]

pub mod joins;
pub mod limits;
pub mod moves;
pub mod pairs;
pub mod refusals;
pub mod telling;
