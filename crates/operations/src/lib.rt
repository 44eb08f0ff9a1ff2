//! What a slot does: its operation, from an operation byte and an argument byte, and back.
#![tactic(auto)]

pub mod kinds;
pub mod operands;
pub mod operation;
pub mod places;
pub mod text;
pub mod wording;
