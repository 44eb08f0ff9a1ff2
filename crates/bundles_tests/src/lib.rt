//! Bundles by example: every pair of an operation byte and an argument byte, the edges of every format, and texts.
#![tactic(auto)]

#[cfg(test)]
mod conversions;
#[cfg(test)]
mod edges;
#[cfg(test)]
mod pairs;
#[cfg(test)]
mod texts;
