// What calls on machines work with: lists in buffers, worklists, counts, endings, and machines as their tables hold them.
#![tactic(auto)]

pub mod counts;
pub mod endings;
pub mod lists;
pub mod machines;
pub mod nodes;
pub mod searching;
pub mod worklists;
