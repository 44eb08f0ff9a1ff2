use crate::rows::{Row, leaves, makes};
use operations::kinds::Binary;
use operations::operands::{Constant, Operand, Source};
use operations::operation::Operation;
use operations::places::{Near, Place, StackNumber};
use std::process::Abort;

fn combine<'a>(
    rt: &impl Abort,
    binary: Binary,
    operand: Operand,
    before: &'a [u32],
    carry: bool,
    after: &'a [u32],
    left: (bool, bool),
) {
    leaves(
        rt,
        Operation::Combine(binary, operand),
        Row {
            before,
            flags: (carry, false),
            after,
            left,
        },
    );
}

// n1 is the top before the operand, n2 the operand.
#[test]
fn subtracts(rt: HostRuntime) {
    let own = Operand::Source(Source::Own(Place::S1));
    let moved = Operand::Source(Source::Moved(Near::S0));
    combine(
        &rt,
        Binary::Sub,
        own,
        &[7, 5],
        true,
        &[7, 0xFFFF_FFFE],
        (false, false),
    );
    combine(&rt, Binary::Sub, moved, &[7, 5], false, &[2], (true, false));
    combine(
        &rt,
        Binary::Subr,
        moved,
        &[7, 5],
        true,
        &[0xFFFF_FFFE],
        (false, false),
    );
    combine(&rt, Binary::Subc, moved, &[7, 5], true, &[3], (true, false));
    combine(
        &rt,
        Binary::Subcr,
        moved,
        &[7, 5],
        true,
        &[0xFFFF_FFFF],
        (false, false),
    );
    let minus_one = Operand::Constant(Constant::MinusOne);
    combine(
        &rt,
        Binary::Sub,
        minus_one,
        &[0x7FFF_FFFF],
        true,
        &[0x8000_0000],
        (false, true),
    );
    combine(
        &rt,
        Binary::Subr,
        Operand::Constant(Constant::Zero),
        &[0x8000_0000],
        true,
        &[0x8000_0000],
        (false, true),
    );
    combine(
        &rt,
        Binary::Sub,
        Operand::Constant(Constant::Min),
        &[0],
        true,
        &[0x8000_0000],
        (false, true),
    );
}

#[test]
fn adds(rt: HostRuntime) {
    let other = Operand::Source(Source::Other(StackNumber::One, Near::S3));
    combine(&rt, Binary::Add, other, &[5], true, &[16], (false, false));
    combine(&rt, Binary::Addc, other, &[5], true, &[17], (false, false));
    combine(
        &rt,
        Binary::Add,
        Operand::Constant(Constant::MinusOne),
        &[9, 1],
        false,
        &[9, 0],
        (true, false),
    );
    combine(
        &rt,
        Binary::Add,
        Operand::Constant(Constant::Max),
        &[1],
        false,
        &[0x8000_0000],
        (false, true),
    );
    combine(
        &rt,
        Binary::Add,
        Operand::Source(Source::Own(Place::S0)),
        &[0x8000_0000],
        false,
        &[0],
        (true, true),
    );
}

#[test]
fn joins_bits(rt: HostRuntime) {
    let own = Operand::Source(Source::Own(Place::S1));
    makes(
        &rt,
        Operation::Combine(Binary::Or, own),
        &[0xF0, 0xFF00],
        &[0xF0, 0xFFF0],
    );
    makes(
        &rt,
        Operation::Combine(Binary::And, own),
        &[0xF0F0, 0xFF00],
        &[0xF0F0, 0xF000],
    );
    makes(
        &rt,
        Operation::Combine(Binary::Xor, own),
        &[0xF0F0, 0xFF00],
        &[0xF0F0, 0x0FF0],
    );
    makes(
        &rt,
        Operation::Combine(Binary::Xor, Operand::Constant(Constant::MinusOne)),
        &[1],
        &[0xFFFF_FFFE],
    );
}

// A moved operand leaves its place: what lay above it closes up.
#[test]
fn moves_operands(rt: HostRuntime) {
    let before = [1, 2, 3, 4];
    makes(
        &rt,
        Operation::Combine(Binary::Or, Operand::Source(Source::Moved(Near::S1))),
        &before,
        &[1, 2, 7],
    );
    makes(
        &rt,
        Operation::Combine(Binary::Or, Operand::Source(Source::Moved(Near::S2))),
        &before,
        &[1, 3, 6],
    );
    makes(
        &rt,
        Operation::Combine(Binary::Or, Operand::Source(Source::Moved(Near::S3))),
        &before,
        &[2, 3, 5],
    );
    makes(
        &rt,
        Operation::Combine(Binary::Or, Operand::Source(Source::Own(Place::S3))),
        &before,
        &[1, 2, 3, 5],
    );
}
