use crate::flags::Flags;

// A word as an operation leaves it, with the flags that it set.
#[derive(Clone, Copy, PartialEq, Eq, Debug)]
pub struct Flagged {
    pub word: u32,
    pub flags: Flags,
}
