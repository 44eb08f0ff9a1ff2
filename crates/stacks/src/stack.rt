ghost use Rattle.std.specs.Prelude.{◌≡◌};
ghost use Rattle.stacks.specs.Held.{empty, held};

use super::contents::Words;
use words::flags::Flags;

// A stack with its two flags, the flag X by which it skips its operations, and its carry count.
#[derive(Clone, Copy, Debug, PartialEq, Eq)]
pub struct Stack {
    pub words: Words,
    pub flags: Flags,
    pub skips: bool,
    pub count: u32,
}

impl Stack {
    pub fn new() -> Stack
        ensures { held result ≡ empty }
    {
        Stack {
            words: Words::new(),
            flags: Flags {
                carry: false,
                overflow: false,
            },
            skips: false,
            count: 0,
        }
    }
}
