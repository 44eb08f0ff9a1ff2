ghost use Rattle.std.specs.Prelude.{◌≡◌};
ghost use Rattle.slots.specs.Latches.{latch_of};

use operations::places::StackNumber;

// The multipliers' latches: stacks 0 and 1 share the low one, stacks 2 and 3 the high one.
#[derive(Clone, Copy)]
pub struct Latches {
    pub low: u64,
    pub high: u64,
}

impl Latches {
    // The latch that a stack's slot reads.
    pub fn of(self, stack: StackNumber) -> u64
        ensures { result ≡ latch_of self stack }
    {
        match stack {
            StackNumber::Zero | StackNumber::One => self.low,
            StackNumber::Two | StackNumber::Three => self.high,
        }
    }
}
