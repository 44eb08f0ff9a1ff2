use crate::rows::{LOW, Row, beside, drafted, leaves, makes, stack_of};
use alu::latches::product;
use operations::kinds::{Fetch, Multiply};
use operations::operands::{Operand, Source};
use operations::operation::Operation;
use operations::places::{Near, StackNumber};
use slots::latches::Latches;
use slots::work::work;
use std::test::Fail;

// −2 times 3 goes into the latch; what is fetched from it next is the product.
#[test]
fn multiplies(rt: HostRuntime) -> Result<(), Fail> {
    let stacks = beside(stack_of(&[0xFFFF_FFFE, 3], (false, false)));
    let draft = drafted(
        Operation::Latch(Multiply::Mul, Operand::Source(Source::Moved(Near::S0))),
        &stacks,
    );
    let Some(write) = draft.write else {
        return Err(Fail::new("a write was expected"));
    };
    assert_eq!(rt; (write.n1, write.n2), (0xFFFF_FFFE, 3));
    assert_eq!(rt; draft.depth(&stacks[0]), 0);
    assert_eq!(rt;
        product(write.multiply, write.n1, write.n2),
        0xFFFF_FFFF_FFFF_FFFA
    );
    assert_eq!(rt; product(Multiply::Umul, write.n1, write.n2), 0x2_FFFF_FFFA);
    assert_eq!(rt; product(Multiply::Pass, write.n1, write.n2), 0x3_FFFF_FFFE);
    Ok(())
}

#[test]
fn fetches(rt: HostRuntime) {
    makes(
        &rt,
        Operation::Fetch(Fetch::Plain),
        &[1],
        &[1, 0x8000_0001, 3],
    );
    makes(
        &rt,
        Operation::Fetch(Fetch::Negated),
        &[1],
        &[1, 0x7FFF_FFFF, 0xFFFF_FFFC],
    );
    let stacks = beside(stack_of(&[], (true, true)));
    let draft = drafted(Operation::Fetch(Fetch::Plain), &stacks);
    assert!(rt; draft.paired && draft.flags.carry && draft.flags.overflow && draft.count == 9);
}

// The number on top is 2 ^ 64 − 1 and then 3: the sum carries, the difference borrows.
#[test]
fn accumulates(rt: HostRuntime) {
    leaves(
        &rt,
        Operation::Fetch(Fetch::Added),
        Row {
            before: &[1, 0xFFFF_FFFF, 0xFFFF_FFFF],
            flags: (false, true),
            after: &[1, 0x8000_0000, 3],
            left: (true, true),
        },
    );
    leaves(
        &rt,
        Operation::Fetch(Fetch::Subtracted),
        Row {
            before: &[1, 3, 0],
            flags: (true, false),
            after: &[1, 0x8000_0002, 0xFFFF_FFFC],
            left: (false, false),
        },
    );
    let carried = beside(stack_of(&[0xFFFF_FFFF, 0xFFFF_FFFF], (false, false)));
    assert_eq!(rt; drafted(Operation::Fetch(Fetch::Added), &carried).count, 10);
    let borrowed = beside(stack_of(&[3, 0], (false, false)));
    assert_eq!(rt;
        drafted(Operation::Fetch(Fetch::Subtracted), &borrowed).count,
        8
    );
}

// Stacks 0 and 1 read one latch, stacks 2 and 3 the other.
#[test]
fn halves(rt: HostRuntime) {
    let stacks = beside(stack_of(&[], (false, false)));
    let latches = Latches { low: LOW, high: 7 };
    let fetched = |number| work(Operation::Fetch(Fetch::Plain), &stacks, number, latches, 0);
    assert_eq!(rt;
        fetched(StackNumber::One).word(&stacks[1], 1),
        Some(0x8000_0001)
    );
    assert_eq!(rt; fetched(StackNumber::Two).word(&stacks[2], 1), Some(7));
    assert_eq!(rt; fetched(StackNumber::Three).word(&stacks[3], 1), Some(7));
}
