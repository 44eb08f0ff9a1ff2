// Examples of loading, with images made by hand.
#![tactic(auto)]

#[cfg(test)]
mod failures;
#[cfg(test)]
mod loads;
