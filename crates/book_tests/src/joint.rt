// A book and work behind it: one memory.
use super::tables::three_blocks;
use blocks::layout::BLOCK;
use book::books::Book;
use memory::joins::Join;
use memory::marks::Mark;
use memory::meaning::Memory;
use memory::refusals::MemoryRefusal;
use memory::works::Work;
use std::process::Abort;
use std::test::*;

// What stands at the edges of the book's blocks and of the work behind it.
fn read_around<M: Memory>(rt: &impl Abort, memory: &mut M) -> Result<(), Fail> {
    let out = MemoryRefusal::OutOfRange;
    let rows = [
        (495, Ok(Mark::Spoiled), Err(MemoryRefusal::Spoiled)),
        (496, Ok(Mark::Kept), Ok(245)),
        (1487, Ok(Mark::Kept), Ok(232)),
        (1488, Ok(Mark::Open), Ok(1)),
        (1489, Ok(Mark::Open), Ok(2)),
        (1490, Err(out), Err(out)),
    ];
    for (at, mark, byte) in rows {
        assert_eq!(rt; memory.mark(at), mark);
        assert_eq!(rt; memory.read(at), byte);
    }
    Ok(())
}

#[test]
fn work_behind_a_book(rt: HostRuntime) -> Result<(), Fail> {
    let mut image = three_blocks(&rt)?;
    assert!(rt; image.len() == 3 * BLOCK);
    image[100] ^= 1;
    let mut book = Book::open(rt.alloc(), &image)?;
    let mut bytes = [1, 2];
    let mut join = Join {
        front: &mut book,
        back: Work::over(&mut bytes),
    };
    assert_eq!(rt; join.size(), 1490);
    read_around(&rt, &mut join)?;
    assert_eq!(rt; join.write(495, 9), Err(MemoryRefusal::Spoiled));
    assert_eq!(rt; join.write(1487, 9), Err(MemoryRefusal::NotOpen));
    assert_eq!(rt; join.write(1488, 9), Ok(()));
    assert_eq!(rt; join.read(1488), Ok(9));
    assert_eq!(rt; bytes, [9, 2]);
    Ok(())
}

#[test]
fn a_book_behind_work(rt: HostRuntime) -> Result<(), Fail> {
    let image = three_blocks(&rt)?;
    let mut bytes = [1, 2];
    let mut join = Join {
        front: Work::over(&mut bytes),
        back: Book::open(rt.alloc(), &image)?,
    };
    assert_eq!(rt; join.size(), 1490);
    assert_eq!(rt; join.read(1), Ok(2));
    assert_eq!(rt; join.read(2), Ok(0));
    assert_eq!(rt; join.read(1489), Ok(232));
    assert_eq!(rt; join.write(2, 9), Err(MemoryRefusal::NotOpen));
    assert_eq!(rt; join.read(1490), Err(MemoryRefusal::OutOfRange));
    Ok(())
}
