// The words that commands of the program are made of.
#![tactic(auto)]

pub mod kinds;
pub mod verbs;
