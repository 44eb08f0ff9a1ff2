//! What a bundle asks of its stacks and where it goes on: condition bytes, branches, and the targets of calls and jumps.
#![tactic(auto)]

pub mod branch;
pub mod checks;
pub mod offset;
pub mod stacks;
pub mod targets;
pub mod text;
