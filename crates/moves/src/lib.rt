//! What a side does: its move, from a code byte, a selector byte and a value byte, and back.
#![tactic(auto)]

pub mod moving;
pub mod parts;
pub mod selectors;
pub mod side;
pub mod text;
