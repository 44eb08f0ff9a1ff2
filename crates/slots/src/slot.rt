ghost use Rattle.std.specs.Prelude.{◌≡◌};

use effects::reach::Reach;
use stacks::stack::Stack;

// What a slot works on: all stacks, its own, its latch and the address of the next bundle, as before the bundle.
#[derive(Clone, Copy)]
pub struct Slot<'a> {
    pub stacks: &'a [Stack; 4],
    pub own: &'a Stack,
    pub latch: u64,
    pub next: u32,
}

impl Slot<'_> {
    // The words that its operands may name.
    pub fn reach(&self) -> Reach<'_>
        ensures stacks { result.stacks.now ≡ self.now.stacks.now }
        ensures own { result.own.now ≡ self.now.own.now.words }
    {
        Reach {
            stacks: self.stacks,
            own: &self.own.words,
        }
    }
}
