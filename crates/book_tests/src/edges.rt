// How long a book may be, and its first and last bytes.
use super::tables::three_blocks;
use blocks::kinds::Kind;
use blocks::layout::BLOCK;
use book::books::Book;
use images::refusals::{ImageError, ImageRefusal};
use images::sealing::seal_all;
use memory::marks::Mark;
use memory::meaning::Memory;
use memory::refusals::MemoryRefusal;
use questions::refusals::Refusal;
use std::test::*;

// The size of a book, or why there is none.
fn sized(opened: Result<Book, ImageError>) -> Result<usize, ImageError> {
    Ok(opened?.size())
}

#[test]
fn lengths(rt: HostRuntime) -> Result<(), Fail> {
    let refused = Err(ImageError::Refused(ImageRefusal::Length));
    let rows = [
        (0, refused),
        (256, refused),
        (511, refused),
        (512, Ok(496)),
        (513, refused),
        (768, refused),
        (8192 * 512 - 1, refused),
        (8192 * 512, Ok(4_063_232)),
        (8192 * 512 + 1, refused),
        (8193 * 512, refused),
    ];
    for (length, size) in rows {
        let image = vec![in rt.alloc(); 0u8; length]?;
        assert_eq!(rt; sized(Book::open(rt.alloc(), &image)), size);
    }
    assert_eq!(rt; ImageRefusal::Length.number(), 4);
    Ok(())
}

#[test]
fn sound_to_the_last_byte(rt: HostRuntime) -> Result<(), Fail> {
    let image = three_blocks(&rt)?;
    assert!(rt; image.len() == 3 * BLOCK);
    let mut book = Book::open(rt.alloc(), &image)?;
    assert_eq!(rt; book.size(), 1488);
    let rows = [
        (0, 0),
        (1, 1),
        (250, 250),
        (251, 0),
        (495, 244),
        (496, 245),
        (991, 238),
        (992, 239),
        (1487, 232),
    ];
    for (at, byte) in rows {
        assert_eq!(rt; book.mark(at), Ok(Mark::Kept));
        assert_eq!(rt; book.read(at), Ok(byte));
        assert_eq!(rt; book.write(at, 9), Err(MemoryRefusal::NotOpen));
        assert_eq!(rt; book.read(at), Ok(byte));
    }
    Ok(())
}

#[test]
fn past_the_end(rt: HostRuntime) -> Result<(), Fail> {
    let image = three_blocks(&rt)?;
    let mut book = Book::open(rt.alloc(), &image)?;
    for at in [1488, 1489, 1536, 4_194_304, usize::MAX] {
        assert_eq!(rt; book.mark(at), Err(MemoryRefusal::OutOfRange));
        assert_eq!(rt; book.read(at), Err(MemoryRefusal::OutOfRange));
        assert_eq!(rt; book.write(at, 9), Err(MemoryRefusal::OutOfRange));
    }
    Ok(())
}

#[test]
fn the_last_byte_of_the_greatest(rt: HostRuntime) -> Result<(), Fail> {
    let mut bytes = vec![in rt.alloc(); 7u8; 8192 * 496]?;
    assert!(rt; bytes.len() == 8192 * 496);
    bytes[8192 * 496 - 1] = 8;
    let image = seal_all(rt.alloc(), Kind::Table, &bytes)?;
    let mut book = Book::open(rt.alloc(), &image)?;
    assert_eq!(rt; book.size(), 4_063_232);
    assert_eq!(rt; book.read(4_063_230), Ok(7));
    assert_eq!(rt; book.read(4_063_231), Ok(8));
    assert_eq!(rt; book.read(4_063_232), Err(MemoryRefusal::OutOfRange));
    Ok(())
}
