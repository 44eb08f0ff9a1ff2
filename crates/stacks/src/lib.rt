//! Stacks of at most 64 words with their flags, and changes to a stack's words as small as what changes.
#![tactic(auto)]

pub mod changes;
pub mod contents;
mod equality;
pub mod reading;
pub mod settling;
pub mod stack;
