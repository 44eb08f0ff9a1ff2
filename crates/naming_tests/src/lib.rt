//! Operations found by what people write for them.
#![tactic(auto)]

#[cfg(test)]
mod found;
