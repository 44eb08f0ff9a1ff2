// The work of a slot.
ghost use Rattle.std.specs.Prelude.{◌≡◌, ◌≤◌, length, if◌then◌else◌};
ghost use Rattle.operations.specs.declared.operation.Operation.TheVariants.{Nop};
ghost use Rattle.operations.specs.Places.{stack_number};
ghost use Rattle.effects.specs.Operands.{words_of};
ghost use Rattle.slots.specs.Left.{left};
ghost use Rattle.drafts.specs.Shown.{shown};
ghost use Rattle.slots.specs.Slots.{asked, operated as operated_by, worked};
ghost use Rattle.slots.specs.Latches.{latch_of};
ghost use Rattle.stacks.specs.Held.{held, held_at};

use super::latches::Latches;
use super::places::pin;
use super::slot::Slot;
use super::tops::{append_byte, flag, push, scan_top, shift_top};
use drafts::draft::{Draft, SlotFault};
use effects::reach;
use operations::operation::Operation;
use operations::places::StackNumber;
use stacks::stack::Stack;

// A stack with X set runs nop.
fn running(operation: Operation, skips: bool) -> Operation
    ensures { result ≡ (if skips then Nop else operation) }
{
    if skips { Operation::Nop } else { operation }
}

// The questions after an operation: were there words enough, and do 64 words hold the stack?
fn ask(own: &Stack, operated: Option<Draft>) -> Draft
    ensures value { shown result (held own.now) ≡ asked (held own.now) (left operated (held own.now)) }
    ensures fits { length (shown result (held own.now)).stack.words ≤ 64 }
{
    // The stack of a fault is the one before, and fits.
    prove!(own.words.depth() <= 64);
    match operated {
        None => Draft::faulty(own, SlotFault::Lacking),
        Some(draft) if draft.depth(own) > 64 => Draft::faulty(own, SlotFault::Crowded),
        Some(draft) => draft,
    }
}

impl Slot<'_> {
    fn operate(&self, operation: Operation) -> Option<Draft>
        ensures { left result (held self.now.own.now) ≡ operated_by operation (held self.now.own.now) (words_of self.now.stacks.now) self.now.latch self.now.next }
    {
        let own = self.own;
        match operation {
            Operation::Nop => Some(Draft::untouched(own)),
            Operation::Push(value) => Some(push(own, i32::from(value).cast_unsigned())),
            Operation::Append(byte) => append_byte(own, byte),
            Operation::Combine(binary, operand) => self.combine_two(binary, operand),
            Operation::Latch(multiply, operand) => self.latch_two(multiply, operand),
            Operation::Pick(source) => self.pick(source),
            Operation::Pin(place) => pin(own, place),
            Operation::Flag(condition) => flag(own, condition),
            Operation::Shift(shift) => shift_top(own, shift),
            Operation::Scan(scan) => scan_top(own, scan),
            Operation::Special(kind) => self.access(kind),
            Operation::Fetch(fetch) => self.fetch_latch(fetch),
        }
    }

    #[tactic(auto, unfolding(crate::specs::Slots::worked))]
    fn work(&self, operation: Operation) -> Draft
        ensures value { shown result (held self.now.own.now) ≡ worked operation (held self.now.own.now) (words_of self.now.stacks.now) self.now.latch self.now.next }
        ensures fits { length (shown result (held self.now.own.now)).stack.words ≤ 64 }
    {
        let own = self.own;
        ask(own, self.operate(running(operation, own.skips)))
    }
}

// A slot's draft. It reads every stack, the latch and the address as before the bundle.
pub fn work(
    operation: Operation,
    stacks: &[Stack; 4],
    number: StackNumber,
    latches: Latches,
    next: u32,
) -> Draft
    ensures value { let own = held_at stacks.now (stack_number number) in shown result own ≡ worked operation own (words_of stacks.now) (latch_of latches number) next }
    ensures fits { length (shown result (held_at stacks.now (stack_number number))).stack.words ≤ 64 }
{
    let slot = Slot {
        stacks,
        own: reach::stack(stacks, number),
        latch: latches.of(number),
        next,
    };
    slot.work(operation)
}
