// A read-only image of table blocks as a memory.
#![tactic(auto)]

pub mod books;
