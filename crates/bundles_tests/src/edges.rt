// The edges of every format: lawful bytes come back, and unlawful ones are refused.
use bundles::bundle::Bundle;
use codes::bytes::Coded;
use std::process::Abort;
use std::test::Fail;

fn check_lawful(rt: &impl Abort, bytes: [u8; 16]) -> Result<(), Fail> {
    let bundle = Bundle::decode(&bytes).ok_or("a lawful bundle was refused")?;
    assert_eq!(rt; bundle.encode(), bytes);
    Ok(())
}

fn check_unlawful(rt: &impl Abort, bytes: [u8; 16]) {
    assert!(rt; Bundle::decode(&bytes).is_none());
}

#[test]
fn sixteen_bytes(rt: HostRuntime) {
    assert!(rt; Bundle::read(&[]).is_none());
    assert!(rt; Bundle::read(&[0; 15]).is_none());
    assert!(rt; Bundle::read(&[0; 16]).is_some());
    assert!(rt; Bundle::read(&[0; 17]).is_none());
}

#[test]
fn moves(rt: HostRuntime) -> Result<(), Fail> {
    // an 8-byte store in the last mode, of set 3 and the higher stack, and the least offset
    check_lawful(&rt, [0, 0, 0, 0, 0, 0, 50, 0, 0, 9, 0x67, 0, 1, 0, 128, 0])?;
    // get of F3 beside set of R0
    check_lawful(&rt, [0, 0, 0, 0, 0, 0, 0, 0, 0, 11, 0x37, 0, 10, 0, 0, 0])?;
    // mode 7; bit 3; a value beside a load; code 12; register 4; a selector beside an offset; byte 15
    check_unlawful(&rt, [0, 0, 0, 0, 0, 0, 0, 0, 0, 2, 0x70, 0, 0, 0, 0, 0]);
    check_unlawful(&rt, [0, 0, 0, 0, 0, 0, 0, 0, 0, 2, 0x08, 0, 0, 0, 0, 0]);
    check_unlawful(&rt, [0, 0, 0, 0, 0, 0, 0, 0, 0, 2, 0, 1, 0, 0, 0, 0]);
    check_unlawful(&rt, [0, 0, 0, 0, 0, 0, 0, 0, 0, 12, 0, 0, 0, 0, 0, 0]);
    check_unlawful(&rt, [0, 0, 0, 0, 0, 0, 0, 0, 0, 0, 0, 0, 10, 0x40, 0, 0]);
    check_unlawful(&rt, [0, 0, 0, 0, 0, 0, 0, 0, 0, 0, 0, 0, 1, 1, 5, 0]);
    check_unlawful(&rt, [0, 0, 0, 0, 0, 0, 0, 0, 0, 0, 0, 0, 0, 0, 0, 1]);
    Ok(())
}

#[test]
fn setups(rt: HostRuntime) -> Result<(), Fail> {
    check_lawful(&rt, [0, 0, 0, 0, 0, 0, 0, 0, 1, 0, 31, 8, 16, 0, 0, 0])?;
    // bit 5 of a condition byte; bytes 13 to 15
    check_unlawful(&rt, [0, 0, 0, 0, 0, 0, 0, 0, 1, 0, 0, 0, 32, 0, 0, 0]);
    check_unlawful(&rt, [0, 0, 0, 0, 0, 0, 0, 0, 1, 0, 0, 0, 0, 1, 0, 0]);
    check_unlawful(&rt, [0, 0, 0, 0, 0, 0, 0, 0, 1, 0, 0, 0, 0, 0, 1, 0]);
    check_unlawful(&rt, [0, 0, 0, 0, 0, 0, 0, 0, 1, 0, 0, 0, 0, 0, 0, 1]);
    Ok(())
}

#[test]
fn branches(rt: HostRuntime) -> Result<(), Fail> {
    // 1,023 forth and 1,024 back, always; all of four stacks, popping, -1
    check_lawful(&rt, [0, 0, 0, 0, 0, 0, 0, 0, 2, 0, 0, 3, 255, 0, 0, 0])?;
    check_lawful(&rt, [0, 0, 0, 0, 0, 0, 0, 0, 2, 0, 0, 252, 0, 0, 0, 0])?;
    check_lawful(&rt, [0, 0, 0, 0, 0, 0, 0, 0, 2, 31, 31, 255, 255, 0, 0, 0])?;
    check_lawful(&rt, [0, 0, 0, 0, 0, 0, 0, 0, 2, 0, 8, 0, 0, 0, 0, 0])?;
    // 1,024 forth and 1,025 back
    check_unlawful(&rt, [0, 0, 0, 0, 0, 0, 0, 0, 2, 0, 0, 4, 0, 0, 0, 0]);
    check_unlawful(&rt, [0, 0, 0, 0, 0, 0, 0, 0, 2, 0, 0, 251, 255, 0, 0, 0]);
    // no stack beside a condition, or beside bit 4; bit 5; byte 13
    check_unlawful(&rt, [0, 0, 0, 0, 0, 0, 0, 0, 2, 1, 0, 0, 0, 0, 0, 0]);
    check_unlawful(&rt, [0, 0, 0, 0, 0, 0, 0, 0, 2, 0, 16, 0, 0, 0, 0, 0]);
    check_unlawful(&rt, [0, 0, 0, 0, 0, 0, 0, 0, 2, 0, 33, 0, 0, 0, 0, 0]);
    check_unlawful(&rt, [0, 0, 0, 0, 0, 0, 0, 0, 2, 0, 0, 0, 0, 1, 0, 0]);
    Ok(())
}

#[test]
fn calls_and_jumps(rt: HostRuntime) -> Result<(), Fail> {
    check_lawful(
        &rt,
        [1, 255, 2, 255, 15, 27, 0, 0, 3, 0, 0, 255, 255, 255, 248, 0],
    )?;
    check_lawful(&rt, [16, 7, 7, 31, 50, 0, 0, 0, 4, 0, 0, 0, 0, 0, 0, 0])?;
    // a target that is no multiple of 8; an operation in slot 3; byte 9; byte 15; format 5
    check_unlawful(&rt, [0, 0, 0, 0, 0, 0, 0, 0, 3, 0, 0, 0, 0, 0, 4, 0]);
    check_unlawful(&rt, [0, 0, 0, 0, 0, 0, 43, 0, 3, 0, 0, 0, 0, 0, 8, 0]);
    check_unlawful(&rt, [0, 0, 0, 0, 0, 0, 0, 0, 4, 1, 0, 0, 0, 0, 8, 0]);
    check_unlawful(&rt, [0, 0, 0, 0, 0, 0, 0, 0, 4, 0, 0, 0, 0, 0, 8, 1]);
    check_unlawful(&rt, [0, 0, 0, 0, 0, 0, 0, 0, 5, 0, 0, 0, 0, 0, 8, 0]);
    Ok(())
}
