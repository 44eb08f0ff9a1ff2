//! Examples of every word operation, each worked by hand.
#![tactic(auto)]

#[cfg(test)]
mod bits;
#[cfg(test)]
mod conditions;
#[cfg(test)]
mod latch;
#[cfg(test)]
mod shifts;
#[cfg(test)]
mod sums;
