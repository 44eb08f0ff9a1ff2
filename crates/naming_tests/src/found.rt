// The first operation, the last one, some of every shape of argument, and texts that name none.
use naming::operation_named;
use operations::kinds::{Binary, Fetch};
use operations::operands::{Constant, Operand, Source};
use operations::operation::Operation;
use operations::places::{Near, Place, StackNumber};
use std::process::Abort;
use std::test::*;

fn check_named(
    rt: &(impl Abort + AllocGlobal),
    text: &str,
    operation: Operation,
) -> Result<(), Fail> {
    assert_eq!(rt; operation_named(rt.alloc(), text)?, Some(operation));
    Ok(())
}

#[test]
fn the_first_and_the_last(rt: HostRuntime) -> Result<(), Fail> {
    check_named(&rt, "nop", Operation::Nop)?;
    check_named(&rt, "-mul@+", Operation::Fetch(Fetch::Subtracted))
}

#[test]
fn arguments_of_every_shape(rt: HostRuntime) -> Result<(), Fail> {
    check_named(&rt, "push -3", Operation::Push(-3))?;
    check_named(&rt, "<# 255", Operation::Append(255))?;
    let below = Operand::Source(Source::Own(Place::S1));
    check_named(&rt, "sub s1", Operation::Combine(Binary::Sub, below))?;
    let moved = Operand::Source(Source::Moved(Near::S2));
    check_named(&rt, "add s2p", Operation::Combine(Binary::Add, moved))?;
    let greatest = Operand::Constant(Constant::Max);
    check_named(
        &rt,
        "and #$7FFFFFFF",
        Operation::Combine(Binary::And, greatest),
    )?;
    let other = Source::Other(StackNumber::Two, Near::S3);
    check_named(&rt, "pick 2s3", Operation::Pick(other))?;
    check_named(&rt, "pin s7", Operation::Pin(Place::S7))
}

#[test]
fn texts_of_none(rt: HostRuntime) -> Result<(), Fail> {
    for text in [
        "",
        "sub",
        "sub s8",
        "sub  s1",
        "push 128",
        "pick #$7FFFFFFF",
        "SUB s1",
        "call 8",
    ] {
        assert_eq!(rt; operation_named(rt.alloc(), text)?, None);
    }
    Ok(())
}
