// The words that an operand may name: those of its own stack, and those near the top of any other, as they were before
// the bundle.
ghost use Rattle.std.specs.Prelude.{◌≡◌};
ghost use Rattle.effects.specs.Operands.{words_of};
ghost use Rattle.operations.specs.Places.{near_number, stack_number};
ghost use Rattle.stacks.specs.Held.{held, held_at};
ghost use Rattle.std.specs.List.{slice_get};

use codes::numbers::Numbered;
use operations::places::{Near, StackNumber};
use stacks::contents::Words;
use stacks::stack::Stack;

#[derive(Clone, Copy)]
pub struct Reach<'a> {
    pub stacks: &'a [Stack; 4],
    pub own: &'a Words,
}

#[tactic(auto, using(crate::proofs::Stacks::held_at_lem))]
pub fn stack(stacks: &[Stack; 4], number: StackNumber) -> &Stack
    ensures { held result.now ≡ held_at stacks.now (stack_number number) }
{
    &stacks[usize::from(number.number())]
}

impl Reach<'_> {
    pub(crate) fn other_word(&self, number: StackNumber, near: Near) -> Option<u32>
        ensures { result ≡ slice_get (words_of self.now.stacks.now number) (near_number near) }
    {
        stack(self.stacks, number)
            .words
            .get(usize::from(near.number()))
    }
}
