//! What the operations of a slot compute of their words: each kind by its name.
#![tactic(auto)]

pub mod latches;
pub mod tops;
pub mod twos;
