// A slot worked on stack 0, shown and settled, beside what is expected. Words are written with the top last.
use codes::numbers::Numbered;
use drafts::draft::Draft;
use operations::operation::Operation;
use operations::places::StackNumber;
use questions::refusals::Refusal;
use slots::latches::Latches;
use slots::work::work;
use stacks::changes::{Change, Few};
use stacks::stack::Stack;
use std::process::Abort;
use std::test::Fail;
use words::flags::Flags;

// The words of the other stacks, the latches and the next address are the same for every row.
pub const LOW: u64 = 0x0000_0003_8000_0001;

pub const HIGH: u64 = 7;

pub const NEXT: u32 = 48;

#[derive(Clone, Copy, Drop)]
pub struct Row<'a> {
    pub before: &'a [u32],
    pub flags: (bool, bool),
    pub after: &'a [u32],
    pub left: (bool, bool),
}

fn flags_of((carry, overflow): (bool, bool)) -> Flags {
    Flags { carry, overflow }
}

pub fn stack_of(words: &[u32], flags: (bool, bool)) -> Stack {
    let mut stack = Stack::new();
    for word in words {
        stack.words.settle(Change::Replace(0, Few::One([*word])));
    }
    stack.flags = flags_of(flags);
    stack.count = 9;
    stack
}

pub fn filled(depth: usize) -> Stack {
    let mut stack = Stack::new();
    for _ in 0..depth {
        stack.words.settle(Change::Replace(0, Few::One([5])));
    }
    stack
}

// Stacks 1 to 3 beside the slot's own.
pub fn beside(own: Stack) -> [Stack; 4] {
    let clear = (false, false);
    [
        own,
        stack_of(&[11, 12, 13, 14], clear),
        stack_of(&[21, 22, 23], clear),
        stack_of(&[], clear),
    ]
}

pub fn drafted(operation: Operation, stacks: &[Stack; 4]) -> Draft {
    let latches = Latches {
        low: LOW,
        high: HIGH,
    };
    work(operation, stacks, StackNumber::Zero, latches, NEXT)
}

fn check_words(rt: &impl Abort, stack: &Stack, words: &[u32]) {
    assert_eq!(rt; stack.words.depth(), words.len());
    for (place, word) in words.iter().rev().enumerate() {
        assert_eq!(rt; stack.words.get(place), Some(*word));
    }
}

// The draft shows the words before they are settled, and leaves them after.
pub fn leaves(rt: &impl Abort, operation: Operation, row: Row) {
    let stacks = beside(stack_of(row.before, row.flags));
    let draft = drafted(operation, &stacks);
    let mut own = stacks[0];
    assert!(rt; draft.fault.is_none(), "no fault");
    assert_eq!(rt; draft.depth(&own), row.after.len());
    assert_eq!(rt; draft.word(&own, 0), row.after.last().copied());
    draft.settle(&mut own);
    check_words(rt, &own, row.after);
    assert_eq!(rt; own.flags, flags_of(row.left));
}

// A word below, which stays, and flags that stay.
pub fn makes<'a>(rt: &impl Abort, operation: Operation, before: &'a [u32], after: &'a [u32]) {
    let flags = (true, false);
    leaves(
        rt,
        operation,
        Row {
            before,
            flags,
            after,
            left: flags,
        },
    );
}

// A fault by its number: the draft is the old stack, with no write, target or pair.
pub fn faults(rt: &impl Abort, operation: Operation, own: Stack, number: u16) -> Result<(), Fail> {
    let stacks = beside(own);
    let draft = drafted(operation, &stacks);
    let Some(fault) = draft.fault else {
        return Err(Fail::new("a fault was expected"));
    };
    assert_eq!(rt; fault.number(), number);
    assert_eq!(rt; draft.depth(&own), own.words.depth());
    assert_eq!(rt; draft.word(&own, 0), own.words.get(0));
    assert!(rt; draft.write.is_none() && draft.target.is_none() && !draft.paired);
    assert!(rt; draft.flags == own.flags && draft.count == own.count);
    Ok(())
}

pub fn works(rt: &impl Abort, operation: Operation, own: Stack, depth: usize) {
    let stacks = beside(own);
    let draft = drafted(operation, &stacks);
    assert!(rt; draft.fault.is_none(), "no fault");
    assert_eq!(rt; draft.depth(&own), depth);
}
