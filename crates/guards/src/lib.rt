// Algebras of guards: sets of entries, each described by a small value.
#![tactic(auto)]

pub mod activity;
pub mod algebra;
pub mod cases;
pub mod flags;
pub mod malformed;
pub mod minutes;
pub mod pair;
pub mod rows;
