// Programs: a code image accepted or refused once, its bundles decoded once.
#![tactic(auto)]

pub mod loading;
pub mod program;
pub mod refusals;
