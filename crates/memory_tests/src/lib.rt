// Memories that others might write, proved against the trait; and the edges of every memory, tried.
#![tactic(auto)]

pub mod counted;
#[cfg(test)]
mod edges;
pub mod followed;
pub mod sparse;
