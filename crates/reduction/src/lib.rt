// Products, rounds of separation and reduction: the inner layer of joining and telling apart. Its functions ask facts of their
// callers; the calls of the product, which ask none, stand in the crates above.
#![tactic(auto)]

mod classes;
mod marks;
mod pair_moves;
mod pairing;
pub mod products;
mod reached;
pub mod reducing;
mod rounds;
mod steps;
pub mod words;
