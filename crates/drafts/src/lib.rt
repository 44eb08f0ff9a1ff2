//! Drafts of slots: what a slot leaves, kept apart from its stack until it is settled.
#![tactic(auto)]

pub mod draft;
pub mod faults;
pub mod settling;
