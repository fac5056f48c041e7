// Orders on a rule sheet, and the ten-byte records that ask for them.
#![tactic(auto)]

pub mod hand;
pub mod order;
pub mod printout;
pub mod records;
pub mod steps;
