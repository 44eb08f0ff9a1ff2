// Offsets and targets from numbers and back, and what is said of numbers that are none.
use branches::offset::{Offset, TooFar};
use branches::targets::{NoBundle, Target};
use std::process::Abort;
use std::test::Fail;

fn check_offset(rt: &impl Abort, bundles: i16) -> Result<(), Fail> {
    assert_eq!(rt; i16::from(Offset::try_from(bundles)?), bundles);
    Ok(())
}

#[test]
fn offsets(rt: HostRuntime) -> Result<(), Fail> {
    check_offset(&rt, -1024)?;
    check_offset(&rt, 1023)?;
    let error = TooFar { bundles: 1024 };
    assert_eq!(rt; Offset::try_from(1024), Err(error));
    let text = error.to_string(rt.alloc())?;
    assert_eq!(rt; text.as_str(), "a branch by 1024 bundles goes too far");
    Ok(())
}

#[test]
fn targets(rt: HostRuntime) -> Result<(), Fail> {
    assert_eq!(rt; u32::from(Target::try_from(40)?), 40);
    let error = NoBundle { address: 44 };
    assert_eq!(rt; Target::try_from(44), Err(error));
    let text = error.to_string(rt.alloc())?;
    assert_eq!(rt; text.as_str(), "no bundle stands at address 44");
    Ok(())
}
