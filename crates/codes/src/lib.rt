//! Values that are written as numbers or as bytes, and read back.
#![tactic(auto)]

pub mod bytes;
pub mod numbers;
