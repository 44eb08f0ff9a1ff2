// Examples of blocks and images, worked by hand.
#![tactic(auto)]

#[cfg(test)]
mod block_cases;
#[cfg(test)]
mod image_cases;
