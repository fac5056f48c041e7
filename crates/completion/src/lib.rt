// Completing a clause: the inner layer of checking. Its functions ask facts of their callers; the calls of the product, which
// ask none, stand in the crates above.
#![tactic(auto)]

pub mod clashes;
pub mod completing;
mod live_moves;
mod placing;
mod reached;
mod reaching;
mod rests;
