// An image to try books on.
use blocks::kinds::Kind;
use blocks::layout::PAYLOAD;
use images::sealing::seal_all;
use std::test::*;

// Three table blocks, sealed; address a holds a mod 251.
pub fn three_blocks(rt: &impl AllocGlobal) -> Result<Vec<u8>, Fail> {
    let heap = rt.alloc();
    let bytes: Vec<u8> = (0..3 * PAYLOAD).map(|at| (at % 251) as u8).collect(heap)?;
    Ok(seal_all(heap, Kind::Table, &bytes)?)
}
