// Machines whose moves carry guards: the values of a sheet, and the calls on them.
#![tactic(auto)]

pub mod clauses;
mod sizes;
pub mod work;
