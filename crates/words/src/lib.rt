//! Words of 32 bits: what the operations of a slot compute of them.
#![tactic(auto)]

pub mod bits;
pub mod condition;
pub mod fetches;
pub mod flagged;
pub mod flags;
pub mod pair;
pub mod products;
pub mod shifts;
pub mod status;
pub mod sums;
