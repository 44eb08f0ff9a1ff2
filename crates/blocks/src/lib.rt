// Blocks of 512 bytes, in which programs and tables travel: sealed, opened, and put together to images.
#![tactic(auto)]

pub mod check;
pub mod headers;
pub mod kinds;
pub mod layout;
pub mod opening;
pub mod refusals;
pub mod sealing;
