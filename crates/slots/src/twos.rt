// Operations on two words, the second by an operand.
ghost use Rattle.std.specs.Prelude.{◌≡◌};
ghost use Rattle.effects.specs.Operands.{effect, top_two_of, words_of};
ghost use Rattle.slots.specs.Left.{left};
ghost use Rattle.slots.specs.Slots.{combining, latching};
ghost use Rattle.stacks.specs.Held.{held};

use super::slot::Slot;
use super::tops::put_flagged;
use alu::twos::combine;
use drafts::draft::{Draft, LatchWrite};
use operations::kinds::{Binary, Multiply};
use operations::operands::Operand;
use stacks::changes::Change;

impl Slot<'_> {
    pub fn combine_two(&self, binary: Binary, operand: Operand) -> Option<Draft>
        ensures { left result (held self.now.own.now) ≡ combining binary (held self.now.own.now) (top_two_of (effect operand (held self.now.own.now).words (words_of self.now.stacks.now))) }
    {
        let two = self.reach().operand_two(operand)?;
        let word = combine(binary, two.n1, two.n2, self.own.flags);
        Some(put_flagged(self.own, two.off, two.under, word))
    }

    pub fn latch_two(&self, multiply: Multiply, operand: Operand) -> Option<Draft>
        ensures { left result (held self.now.own.now) ≡ latching multiply (held self.now.own.now) (top_two_of (effect operand (held self.now.own.now).words (words_of self.now.stacks.now))) }
    {
        let two = self.reach().operand_two(operand)?;
        Some(Draft {
            write: Some(LatchWrite {
                multiply,
                n1: two.n1,
                n2: two.n2,
            }),
            ..Draft::changed(self.own, Change::Replace(two.off, two.under.into()))
        })
    }
}
