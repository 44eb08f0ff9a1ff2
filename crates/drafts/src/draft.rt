// What a slot leaves: a change to its stack and what it gives to the latch and to the instruction pointer.
ghost use Rattle.std.specs.Prelude.{◌≡◌};
ghost use Rattle.drafts.specs.Shown.{faulty as faulty_by, plain, shown};
ghost use Rattle.stacks.specs.Changes.{changed as changed_by};
ghost use Rattle.stacks.specs.Held.{held};

use operations::kinds::Multiply;
use stacks::changes::{Change, Few};
use stacks::stack::Stack;
use words::flags::Flags;

// What goes into a latch, before it is worked out: two slots may write the same.
#[derive(Clone, Copy, Debug, PartialEq, Eq)]
pub struct LatchWrite {
    pub multiply: Multiply,
    pub n1: u32,
    pub n2: u32,
}

#[derive(Clone, Copy, Debug, PartialEq, Eq)]
pub struct Draft {
    pub change: Change,
    pub flags: Flags,
    pub count: u32,
    pub write: Option<LatchWrite>,
    // where the program goes after the next bundle
    pub target: Option<u32>,
    // a number of two words was pushed
    pub paired: bool,
    pub fault: Option<SlotFault>,
}

#[derive(Clone, Copy, Debug, PartialEq, Eq)]
pub enum SlotFault {
    Lacking = 41,
    Crowded = 47,
}

impl Draft {
    // A change to the words and nothing else.
    pub fn changed(own: &Stack, change: Change) -> Draft
        ensures { shown result (held own.now) ≡ plain (held own.now) (changed_by change (held own.now).words) }
    {
        Draft {
            change,
            flags: own.flags,
            count: own.count,
            write: None,
            target: None,
            paired: false,
            fault: None,
        }
    }

    // The draft of a slot that has not worked: its stack as it is.
    pub fn untouched(own: &Stack) -> Draft
        ensures { shown result (held own.now) ≡ plain (held own.now) (held own.now).words }
    {
        Draft::changed(own, Change::Replace(0, Few::Zero))
    }

    // The draft of a slot that has a fault: its stack as it is, and nothing else.
    pub fn faulty(own: &Stack, fault: SlotFault) -> Draft
        ensures { shown result (held own.now) ≡ faulty_by (held own.now) fault }
    {
        Draft {
            fault: Some(fault),
            ..Draft::untouched(own)
        }
    }
}
