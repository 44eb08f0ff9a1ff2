use crate::rows::{beside, drafted, faults, filled, stack_of, works};
use operations::kinds::{Binary, Fetch, Multiply, Scan, Shift, Special};
use operations::operands::{Constant, Operand, Source};
use operations::operation::Operation;
use operations::places::{Near, Place, StackNumber};
use std::test::Fail;
use words::condition::Condition;

// Only the depth after the operation counts.
#[test]
fn crowds(rt: HostRuntime) -> Result<(), Fail> {
    let pushes = [
        Operation::Push(1),
        Operation::Pick(Source::Own(Place::S0)),
        Operation::Special(Special::FetchIp),
        Operation::Special(Special::FetchCount),
    ];
    for operation in pushes {
        works(&rt, operation, filled(63), 64);
        faults(&rt, operation, filled(64), 47)?;
    }
    works(&rt, Operation::Fetch(Fetch::Plain), filled(62), 64);
    faults(&rt, Operation::Fetch(Fetch::Plain), filled(63), 47)?;
    works(&rt, Operation::Fetch(Fetch::Added), filled(64), 64);
    works(
        &rt,
        Operation::Combine(Binary::Add, Operand::Source(Source::Own(Place::S0))),
        filled(64),
        64,
    );
    works(
        &rt,
        Operation::Pick(Source::Moved(Near::S3)),
        filled(64),
        64,
    );
    works(&rt, Operation::Nop, filled(64), 64);
    works(&rt, Operation::Pin(Place::S7), filled(64), 63);
    Ok(())
}

#[test]
fn lacks_all(rt: HostRuntime) -> Result<(), Fail> {
    let needy = [
        Operation::Append(1),
        Operation::Combine(Binary::Or, Operand::Constant(Constant::Zero)),
        Operation::Latch(Multiply::Pass, Operand::Constant(Constant::Zero)),
        Operation::Pick(Source::Own(Place::S0)),
        Operation::Pick(Source::Moved(Near::S0)),
        Operation::Pin(Place::S0),
        Operation::Flag(Condition::True),
        Operation::Shift(Shift::Asr),
        Operation::Scan(Scan::Ones),
        Operation::Special(Special::StoreIp),
        Operation::Special(Special::StoreCount),
        Operation::Fetch(Fetch::Added),
    ];
    for operation in needy {
        faults(&rt, operation, filled(0), 41)?;
    }
    Ok(())
}

// One word fewer than an operation needs, and then as many.
#[test]
fn lacks_one(rt: HostRuntime) -> Result<(), Fail> {
    let needs = [
        (Operation::Fetch(Fetch::Subtracted), 2, 2),
        (
            Operation::Combine(Binary::Add, Operand::Source(Source::Own(Place::S7))),
            8,
            8,
        ),
        (
            Operation::Combine(Binary::Add, Operand::Source(Source::Moved(Near::S0))),
            2,
            1,
        ),
        (
            Operation::Combine(Binary::Add, Operand::Source(Source::Moved(Near::S1))),
            2,
            1,
        ),
        (
            Operation::Combine(Binary::Add, Operand::Source(Source::Moved(Near::S3))),
            4,
            3,
        ),
        (
            Operation::Latch(Multiply::Mul, Operand::Source(Source::Moved(Near::S2))),
            3,
            1,
        ),
        (Operation::Pick(Source::Moved(Near::S2)), 3, 3),
        (Operation::Pin(Place::S7), 8, 7),
    ];
    for (operation, depth, after) in needs {
        faults(&rt, operation, filled(depth - 1), 41)?;
        works(&rt, operation, filled(depth), after);
    }
    Ok(())
}

// Stack 2 beside the slot has three words, stack 3 has none.
#[test]
fn lacks_elsewhere(rt: HostRuntime) -> Result<(), Fail> {
    let third = Operand::Source(Source::Other(StackNumber::Two, Near::S2));
    let fourth = Operand::Source(Source::Other(StackNumber::Two, Near::S3));
    works(&rt, Operation::Combine(Binary::Add, third), filled(1), 1);
    faults(&rt, Operation::Combine(Binary::Add, third), filled(0), 41)?;
    faults(&rt, Operation::Combine(Binary::Add, fourth), filled(9), 41)?;
    faults(
        &rt,
        Operation::Pick(Source::Other(StackNumber::Three, Near::S0)),
        filled(9),
        41,
    )
}

// A stack with X set runs nop, whatever its slot says.
#[test]
fn skips(rt: HostRuntime) {
    let mut own = stack_of(&[], (true, false));
    own.skips = true;
    let draft = drafted(Operation::Fetch(Fetch::Added), &beside(own));
    assert!(rt; draft.fault.is_none() && !draft.paired && draft.flags.carry);
    assert_eq!(rt; draft.depth(&own), 0);
    let draft = drafted(Operation::Push(1), &beside(own));
    assert_eq!(rt; draft.depth(&own), 0);
}
