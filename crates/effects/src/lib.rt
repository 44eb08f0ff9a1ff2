//! What an operand does to a stack before its operation, read without changing the stack.
#![tactic(auto)]

pub mod picks;
pub mod reach;
pub mod twos;
