// Whole images: sealed, checked, read back.
use blocks::kinds::Kind;
use blocks::layout::{BLOCK, PAYLOAD};
use blocks::refusals::BlockRefusal;
use images::checking::{check as check_image, kind_of};
use images::reading::payloads;
use images::refusals::{ImageError, ImageRefusal};
use images::sealing::seal_all;
use questions::refusals::Refusal;
use std::process::Abort;
use std::test::Fail;

#[test]
fn bytes_come_back_with_their_filling(rt: HostRuntime) -> Result<(), Fail> {
    let heap = rt.alloc();
    let bytes = vec![in heap; 3u8; PAYLOAD + 1]?;
    let image = seal_all(heap, Kind::Table, &bytes)?;
    assert_eq!(rt; image.len(), 2 * BLOCK);
    assert_eq!(rt; kind_of(&image) == Kind::Table, true);
    let back = payloads(heap, Kind::Table, &image)?;
    assert!(rt; back.len() == 2 * PAYLOAD);
    assert_eq!(rt; back[PAYLOAD], 3);
    assert_eq!(rt; back[PAYLOAD + 1], 0);
    assert_eq!(rt; back[2 * PAYLOAD - 1], 0);
    Ok(())
}

#[test]
fn nothing_makes_no_image(rt: HostRuntime) {
    let heap = rt.alloc();
    assert_eq!(rt;
        seal_all(heap, Kind::Code, &[]).err(),
        Some(ImageError::Refused(ImageRefusal::Length))
    );
    assert_eq!(rt; check_image(Kind::Code, &[]), Err(ImageRefusal::Length));
    assert_eq!(rt;
        check_image(Kind::Code, &[1u8; 511]),
        Err(ImageRefusal::Length)
    );
    assert_eq!(rt;
        check_image(Kind::Code, &[1u8; 513]),
        Err(ImageRefusal::Length)
    );
}

#[test]
fn the_greatest_image_and_one_past_it(rt: HostRuntime) -> Result<(), Fail> {
    greatest(&rt, Kind::Code, 2048)?;
    greatest(&rt, Kind::Table, 8192)
}

fn greatest(rt: &(impl Abort + AllocGlobal), kind: Kind, blocks: usize) -> Result<(), Fail> {
    let heap = rt.alloc();
    let mut bytes = vec![in heap; 1u8; blocks.saturating_mul(PAYLOAD)]?;
    let mut image = seal_all(heap, kind, &bytes)?;
    assert_eq!(rt; check_image(kind, &image), Ok(blocks));
    assert_eq!(rt; payloads(heap, kind, &image)? == bytes, true);
    bytes.push(0)?;
    assert_eq!(rt;
        seal_all(heap, kind, &bytes).err(),
        Some(ImageError::Refused(ImageRefusal::Length))
    );
    image.extend_from_slice(&[0u8; BLOCK])?;
    assert_eq!(rt; check_image(kind, &image), Err(ImageRefusal::Length));
    Ok(())
}

#[test]
fn the_first_unsound_block_is_named(rt: HostRuntime) -> Result<(), Fail> {
    let heap = rt.alloc();
    let mut image = seal_all(heap, Kind::Code, &[5u8; 2000])?;
    assert!(rt; image.len() == 5 * BLOCK);
    image[4 * BLOCK] = 2;
    image[3 * BLOCK + 20] ^= 0x80;
    let refusal = ImageRefusal::Block {
        place: 3,
        refusal: BlockRefusal::WrongCheck,
    };
    assert_eq!(rt; check_image(Kind::Code, &image), Err(refusal));
    assert_eq!(rt; refusal.number(), 9);
    assert_eq!(rt; ImageRefusal::Length.number(), 4);
    Ok(())
}

#[test]
fn refusals_are_shown(rt: HostRuntime) -> Result<(), Fail> {
    let heap = rt.alloc();
    let refusal = ImageRefusal::Block {
        place: 3,
        refusal: BlockRefusal::WrongCheck,
    };
    let refused = ImageError::Refused(refusal);
    let shown = format!(in heap; "{refused}")?;
    assert_eq!(rt; shown.as_str(), "9: Is the check word right? (block 3)");
    let lacking = ImageError::OutOfMemory;
    let shown = format!(in heap; "{lacking}")?;
    assert_eq!(rt; shown.as_str(), "there is not memory enough");
    Ok(())
}
