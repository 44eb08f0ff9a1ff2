//! Bundles: sixteen bytes, typed.
#![tactic(auto)]

pub mod bundle;
pub mod ending;
pub mod tails;
pub mod text;
