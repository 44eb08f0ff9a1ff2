// Books with a block that is not sound: its bytes are spoiled, and its neighbours are kept.
use super::tables::three_blocks;
use blocks::check::check_word;
use blocks::kinds::Kind;
use blocks::layout::{BLOCK, PAYLOAD};
use blocks::sealing::seal_block;
use book::books::Book;
use memory::marks::Mark;
use memory::meaning::Memory;
use memory::refusals::MemoryRefusal;
use std::process::Abort;
use std::test::*;

// The three blocks with another one in the middle.
fn with_middle(rt: &(impl Abort + AllocGlobal), block: &[u8; BLOCK]) -> Result<Vec<u8>, Fail> {
    let mut image = three_blocks(rt)?;
    assert!(rt; image.len() == 3 * BLOCK);
    image[BLOCK..2 * BLOCK].copy_from_slice(block);
    Ok(image)
}

// Only the addresses 496 to 991 are spoiled.
fn only_the_middle(rt: &(impl Abort + AllocGlobal), image: &[u8]) -> Result<(), Fail> {
    let mut book = Book::open(rt.alloc(), image)?;
    assert_eq!(rt; book.size(), 1488);
    for at in 496..992 {
        assert_eq!(rt; book.mark(at), Ok(Mark::Spoiled));
        assert_eq!(rt; book.read(at), Err(MemoryRefusal::Spoiled));
        assert_eq!(rt; book.write(at, 9), Err(MemoryRefusal::Spoiled));
    }
    for (at, byte) in [(0, 0), (495, 244), (992, 239), (1487, 232)] {
        assert_eq!(rt; book.mark(at), Ok(Mark::Kept));
        assert_eq!(rt; book.read(at), Ok(byte));
        assert_eq!(rt; book.write(at, 9), Err(MemoryRefusal::NotOpen));
    }
    assert_eq!(rt; book.mark(1488), Err(MemoryRefusal::OutOfRange));
    Ok(())
}

#[test]
fn one_bit_of_the_middle(rt: HostRuntime) -> Result<(), Fail> {
    for at in [0, 1, 2, 3, 4, 11, 12, 255, 507, 508, 511] {
        let mut block = seal_block(Kind::Table, 1, &[5; PAYLOAD]);
        assert!(rt; block.len() == BLOCK);
        block[at] ^= 1;
        only_the_middle(&rt, &with_middle(&rt, &block)?)?;
    }
    Ok(())
}

#[test]
fn sound_but_for_the_kind_or_the_place(rt: HostRuntime) -> Result<(), Fail> {
    let rows = [(Kind::Code, 1), (Kind::Table, 0), (Kind::Table, 2)];
    for (kind, number) in rows {
        let block = seal_block(kind, number, &[5; PAYLOAD]);
        only_the_middle(&rt, &with_middle(&rt, &block)?)?;
    }
    Ok(())
}

// With their check words made right again.
#[test]
fn sound_but_for_the_edition_or_a_zero(rt: HostRuntime) -> Result<(), Fail> {
    for at in [1, 4, 11] {
        let mut block = seal_block(Kind::Table, 1, &[5; PAYLOAD]);
        assert!(rt; block.len() == BLOCK);
        block[at] ^= 2;
        let word = check_word(&block[0..508]);
        block[508..512].copy_from_slice(&word.to_be_bytes());
        only_the_middle(&rt, &with_middle(&rt, &block)?)?;
    }
    Ok(())
}

#[test]
fn another_sound_block(rt: HostRuntime) -> Result<(), Fail> {
    let image = with_middle(&rt, &seal_block(Kind::Table, 1, &[5; PAYLOAD]))?;
    let mut book = Book::open(rt.alloc(), &image)?;
    for at in 496..992 {
        assert_eq!(rt; book.read(at), Ok(5));
    }
    Ok(())
}

#[test]
fn no_sound_block(rt: HostRuntime) -> Result<(), Fail> {
    let image = [0u8; 2 * BLOCK];
    let mut book = Book::open(rt.alloc(), &image)?;
    assert_eq!(rt; book.size(), 992);
    assert_eq!(rt; book.mark(0), Ok(Mark::Spoiled));
    assert_eq!(rt; book.read(991), Err(MemoryRefusal::Spoiled));
    assert_eq!(rt; book.read(992), Err(MemoryRefusal::OutOfRange));
    Ok(())
}
