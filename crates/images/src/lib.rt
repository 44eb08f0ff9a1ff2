// Images: code or tables as blocks one after the other.
#![tactic(auto)]

pub mod checking;
pub mod reading;
pub mod refusals;
pub mod sealing;
