//! The work of a slot: what an operation makes of its stack, as a draft that can be shown and settled.
#![tactic(auto)]

pub mod latches;
mod places;
mod registers;
mod slot;
mod tops;
mod twos;
pub mod work;
