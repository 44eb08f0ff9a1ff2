use crate::rows::{NEXT, Row, beside, drafted, leaves, makes, stack_of};
use operations::kinds::{Scan, Shift, Special};
use operations::operation::Operation;
use words::condition::Condition;

#[test]
fn pushes_and_appends(rt: HostRuntime) {
    makes(&rt, Operation::Nop, &[], &[]);
    makes(&rt, Operation::Nop, &[8], &[8]);
    makes(&rt, Operation::Push(127), &[8], &[8, 127]);
    makes(&rt, Operation::Push(-128), &[], &[0xFFFF_FF80]);
    makes(
        &rt,
        Operation::Append(0xFF),
        &[1, 0x1234_5678],
        &[1, 0x3456_78FF],
    );
    makes(&rt, Operation::Append(0), &[0xFF00_0000], &[0]);
}

// With carry set and overflow clear; the word below and the flags stay.
#[test]
fn flags(rt: HostRuntime) {
    let yes = 0xFFFF_FFFF;
    let rows = [
        (Condition::True, yes, yes, yes),
        (Condition::Zero, yes, 0, 0),
        (Condition::Negative, 0, 0, yes),
        (Condition::Overflow, 0, 0, 0),
        (Condition::Below, 0, 0, 0),
        (Condition::Above, 0, yes, yes),
        (Condition::Less, 0, 0, yes),
        (Condition::Greater, 0, yes, 0),
        (Condition::False, 0, 0, 0),
        (Condition::NotZero, 0, yes, yes),
        (Condition::NotNegative, yes, yes, 0),
        (Condition::NoOverflow, yes, yes, yes),
        (Condition::NotBelow, yes, yes, yes),
        (Condition::NotAbove, yes, 0, 0),
        (Condition::NotLess, yes, yes, 0),
        (Condition::NotGreater, yes, 0, yes),
    ];
    for (condition, zero, greatest, least) in rows {
        makes(&rt, Operation::Flag(condition), &[3, 0], &[3, zero]);
        makes(
            &rt,
            Operation::Flag(condition),
            &[3, 0x7FFF_FFFF],
            &[3, greatest],
        );
        makes(
            &rt,
            Operation::Flag(condition),
            &[3, 0x8000_0000],
            &[3, least],
        );
    }
}

// With carry set before; the word is $80000001.
#[test]
fn shifts(rt: HostRuntime) {
    let rows = [
        (Shift::Asr, 0xC000_0000, true, false),
        (Shift::Lsr, 0x4000_0000, true, false),
        (Shift::Ror, 0xC000_0000, true, false),
        (Shift::Rorc, 0xC000_0000, true, false),
        (Shift::Asl, 2, true, true),
        (Shift::Lsl, 2, true, false),
        (Shift::Rol, 3, true, false),
        (Shift::Rolc, 3, true, false),
    ];
    for (shift, word, carry, overflow) in rows {
        leaves(
            &rt,
            Operation::Shift(shift),
            Row {
                before: &[6, 0x8000_0001],
                flags: (true, true),
                after: &[6, word],
                left: (carry, overflow),
            },
        );
    }
}

#[test]
fn scans(rt: HostRuntime) {
    makes(&rt, Operation::Scan(Scan::First), &[4, 0], &[4, 32]);
    makes(
        &rt,
        Operation::Scan(Scan::First),
        &[4, 0x0000_8000],
        &[4, 16],
    );
    makes(
        &rt,
        Operation::Scan(Scan::Ones),
        &[4, 0xFFFF_FFFF],
        &[4, 32],
    );
    makes(&rt, Operation::Scan(Scan::Ones), &[4, 0x8000_0001], &[4, 2]);
}

#[test]
fn fetches_and_stores_registers(rt: HostRuntime) {
    makes(&rt, Operation::Special(Special::FetchIp), &[1], &[1, NEXT]);
    makes(&rt, Operation::Special(Special::FetchCount), &[1], &[1, 9]);
    makes(&rt, Operation::Special(Special::StoreIp), &[1, 47], &[1]);
    makes(&rt, Operation::Special(Special::StoreCount), &[1, 47], &[1]);
    let stacks = beside(stack_of(&[47], (false, false)));
    assert_eq!(rt;
        drafted(Operation::Special(Special::StoreIp), &stacks).target,
        Some(40)
    );
    assert_eq!(rt;
        drafted(Operation::Special(Special::StoreIp), &stacks).count,
        9
    );
    assert_eq!(rt;
        drafted(Operation::Special(Special::StoreCount), &stacks).count,
        47
    );
    assert_eq!(rt;
        drafted(Operation::Special(Special::StoreCount), &stacks).target,
        None
    );
}
