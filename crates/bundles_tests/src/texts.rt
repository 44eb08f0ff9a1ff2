// Bundles in words.
use bundles::bundle::Bundle;
use std::process::Abort;
use std::test::Fail;

fn check_text(
    rt: &(impl Abort + AllocGlobal),
    bytes: [u8; 16],
    expected: &str,
) -> Result<(), Fail> {
    let bundle = Bundle::read(&bytes).ok_or("a lawful bundle was refused")?;
    let text = bundle.to_string(rt.alloc())?;
    assert_eq!(rt; text.as_str(), expected);
    Ok(())
}

#[test]
fn slots_and_moves(rt: HostRuntime) -> Result<(), Fail> {
    check_text(
        &rt,
        [6, 1, 7, 8, 0, 0, 0, 0, 0, 4, 0x21, 0, 0, 0, 0, 0],
        "add s1; sub s0p; nop; nop; ld 0: R1 N+; none",
    )?;
    check_text(
        &rt,
        [15, 23, 7, 29, 8, 28, 1, 253, 0, 8, 0x24, 0, 1, 0, 248, 0],
        "pick 2s3; sub #-1; subr #0; push -3; st 2: R0 N+; offset -8",
    )?;
    check_text(
        &rt,
        [5, 30, 4, 31, 2, 255, 16, 2, 0, 10, 0x13, 0, 11, 0x36, 0, 0],
        "xor #$7FFFFFFF; and #$80000000; <# 255; pin s2; set 0: N3; get 3: F2",
    )?;
    check_text(
        &rt,
        [29, 0, 25, 0, 48, 0, 44, 0, 0, 2, 0, 0, 9, 0x67, 0, 0],
        "u>=; f; -mul@; ip!; ldb 0: R0; st2 3: R3+s0+",
    )
}

#[test]
fn setups_branches_and_targets(rt: HostRuntime) -> Result<(), Fail> {
    check_text(
        &rt,
        [0, 0, 0, 0, 0, 0, 0, 0, 1, 28, 0, 8, 17, 0, 0, 0],
        "nop; nop; nop; nop; ?u>=; :t; :f; ?0=",
    )?;
    check_text(
        &rt,
        [0, 0, 0, 0, 0, 0, 0, 0, 2, 1, 21, 255, 253, 0, 0, 0],
        "nop; nop; nop; nop; br 0&2 :0= -3",
    )?;
    check_text(
        &rt,
        [0, 0, 0, 0, 0, 0, 0, 0, 2, 18, 14, 0, 5, 0, 0, 0],
        "nop; nop; nop; nop; br 1|2|3 ?0< 5",
    )?;
    check_text(
        &rt,
        [0, 0, 0, 0, 0, 0, 0, 0, 2, 1, 24, 0, 0, 0, 0, 0],
        "nop; nop; nop; nop; br 3& :0= 0",
    )?;
    check_text(
        &rt,
        [0, 0, 0, 0, 0, 0, 0, 0, 2, 0, 0, 252, 0, 0, 0, 0],
        "nop; nop; nop; nop; br -1024",
    )?;
    check_text(
        &rt,
        [33, 0, 40, 0, 41, 0, 0, 0, 3, 0, 0, 0, 0, 0, 40, 0],
        "asr; rolc; ff1; call 40",
    )?;
    check_text(
        &rt,
        [12, 11, 46, 0, 42, 0, 0, 0, 4, 0, 0, 0, 0, 1, 0, 0],
        "pass s3p; cc!; popc; jmp 256",
    )
}
