// Memories by their meaning: the trait, the caller's bytes, a memory behind another, and memories that are lent.
#![tactic(auto)]

pub mod asks;
pub mod joins;
pub mod lenders;
pub mod lent;
pub mod marks;
pub mod meaning;
pub mod refusals;
pub mod sentences;
pub mod works;
