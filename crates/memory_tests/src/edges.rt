// The edges of every memory: no byte, the last byte, the joint, the cut, and each refusal in its turn.
use super::counted::Counted;
use super::followed::put_twice_joined;
use super::sparse::Sparse;
use memory::asks::ask_write;
use memory::joins::Join;
use memory::lenders::{write_bytes, write_joined};
use memory::marks::Mark;
use memory::meaning::Memory;
use memory::refusals::{MemoryRefusal, WorkRefusal};
use memory::sentences::{mark_at, read_at, size_of, write_at};
use memory::works::Work;
use questions::refusals::Refusal;
use std::test::Fail;

const OUT: MemoryRefusal = MemoryRefusal::OutOfRange;

#[test]
fn no_bytes(rt: HostRuntime) {
    let mut bytes: [u8; 0] = [];
    let mut work = Work::over(&mut bytes);
    assert_eq!(rt; work.size(), 0);
    assert_eq!(rt; work.mark(0), Err(OUT));
    assert_eq!(rt; work.read(0), Err(OUT));
    assert_eq!(rt; work.write(0, 1), Err(OUT));
}

#[test]
fn last_byte_of_work(rt: HostRuntime) {
    let mut bytes = [5, 6, 7];
    let mut work = Work::over(&mut bytes);
    assert_eq!(rt; size_of(&work), 3);
    assert_eq!(rt; mark_at(&mut work, 2), Ok(Mark::Open));
    assert_eq!(rt; mark_at(&mut work, 3), Err(OUT));
    assert_eq!(rt; read_at(&mut work, 2), Ok(7));
    assert_eq!(rt; read_at(&mut work, 3), Err(OUT));
    assert_eq!(rt; write_at(&mut work, 2, 9), Ok(()));
    assert_eq!(rt; write_at(&mut work, 3, 9), Err(OUT));
    assert_eq!(rt; bytes, [5, 6, 9]);
}

#[test]
fn refused_in_turn(rt: HostRuntime) -> Result<(), Fail> {
    let mut sparse = Sparse::new(3, 8).ok_or("too large")?;
    assert_eq!(rt; sparse.size(), 20);
    let rows = [
        (
            0,
            Ok(Mark::Spoiled),
            Err(MemoryRefusal::Spoiled),
            Err(MemoryRefusal::Spoiled),
        ),
        (
            2,
            Ok(Mark::Spoiled),
            Err(MemoryRefusal::Spoiled),
            Err(MemoryRefusal::Spoiled),
        ),
        (3, Ok(Mark::Kept), Ok(8), Err(MemoryRefusal::NotOpen)),
        (4, Ok(Mark::Open), Ok(0), Ok(())),
        (19, Ok(Mark::Open), Ok(0), Ok(())),
        (20, Err(OUT), Err(OUT), Err(OUT)),
    ];
    for (at, mark, byte, taken) in rows {
        assert_eq!(rt; sparse.mark(at), mark);
        assert_eq!(rt; sparse.read(at), byte);
        assert_eq!(rt; ask_write(&mut sparse, at), taken);
        assert_eq!(rt; sparse.read(at), byte);
        assert_eq!(rt; sparse.write(at, 77), taken);
        assert_eq!(rt; sparse.mark(at), mark);
    }
    assert_eq!(rt; sparse.read(3), Ok(8));
    assert_eq!(rt; sparse.read(4), Ok(77));
    assert_eq!(rt; sparse.read(5), Ok(0));
    assert_eq!(rt; sparse.read(19), Ok(77));
    Ok(())
}

#[test]
fn joint(rt: HostRuntime) {
    let mut low = [1, 2];
    let mut high = [3, 4, 5];
    let mut join = Join {
        front: Work::over(&mut low),
        back: Work::over(&mut high),
    };
    assert_eq!(rt; join.size(), 5);
    assert_eq!(rt; join.read(0), Ok(1));
    assert_eq!(rt; join.read(1), Ok(2));
    assert_eq!(rt; join.read(2), Ok(3));
    assert_eq!(rt; join.read(4), Ok(5));
    assert_eq!(rt; join.read(5), Err(OUT));
    assert_eq!(rt; join.write(1, 21), Ok(()));
    assert_eq!(rt; join.write(2, 31), Ok(()));
    assert_eq!(rt; join.write(5, 99), Err(OUT));
    assert_eq!(rt; low, [1, 21]);
    assert_eq!(rt; high, [31, 4, 5]);
}

#[test]
fn lenders(rt: HostRuntime) {
    let mut low = [1, 2];
    let mut high = [3, 4, 5];
    let mut front = Work::over(&mut low);
    let mut back = Work::over(&mut high);
    assert_eq!(rt; write_joined(&mut front, &mut back, 4, 51), Ok(()));
    put_twice_joined(&mut front, &mut back, 0, 3, 11);
    assert_eq!(rt; low, [11, 2]);
    assert_eq!(rt; high, [3, 11, 51]);
}

#[test]
fn joined_with_spoiled_and_kept(rt: HostRuntime) -> Result<(), Fail> {
    let mut sparse = Sparse::new(1, 8).ok_or("too large")?;
    let mut bytes = [1];
    let mut join = Join {
        front: Work::over(&mut bytes),
        back: Counted {
            inner: &mut sparse,
            asked: 0,
        },
    };
    assert_eq!(rt; join.size(), 19);
    assert_eq!(rt; join.mark(0), Ok(Mark::Open));
    assert_eq!(rt; join.mark(1), Ok(Mark::Spoiled));
    assert_eq!(rt; join.mark(2), Ok(Mark::Kept));
    assert_eq!(rt; join.read(1), Err(MemoryRefusal::Spoiled));
    assert_eq!(rt; join.write(2, 9), Err(MemoryRefusal::NotOpen));
    assert_eq!(rt; join.read(2), Ok(8));
    assert_eq!(rt; join.mark(19), Err(OUT));
    assert_eq!(rt; join.back.asked, 6);
    Ok(())
}

#[test]
fn cut(rt: HostRuntime) -> Result<(), Fail> {
    let mut most = vec![in rt.alloc(); 7u8; 4_194_304]?;
    let mut more = [8, 9];
    let mut front = Work::over(&mut most);
    let mut back = Work::over(&mut more);
    let mut join = Join {
        front: &mut front,
        back: &mut back,
    };
    assert_eq!(rt; join.size(), 4_194_304);
    assert_eq!(rt; join.read(4_194_303), Ok(7));
    assert_eq!(rt; join.mark(4_194_304), Err(OUT));
    assert_eq!(rt; join.read(4_194_304), Err(OUT));
    assert_eq!(rt; join.write(4_194_304, 1), Err(OUT));
    assert_eq!(rt; join.write(4_194_303, 1), Ok(()));
    assert_eq!(rt; more, [8, 9]);
    assert!(rt; most.len() == 4_194_304);
    assert_eq!(rt; most[4_194_303], 1);
    Ok(())
}

#[test]
fn cut_within_the_back(rt: HostRuntime) -> Result<(), Fail> {
    let mut low = [1];
    let mut most = vec![in rt.alloc(); 7u8; 4_194_304]?;
    let mut join = Join {
        front: Work::over(&mut low),
        back: Work::over(&mut most),
    };
    assert_eq!(rt; join.size(), 4_194_304);
    assert_eq!(rt; join.read(0), Ok(1));
    assert_eq!(rt; join.write(4_194_303, 2), Ok(()));
    assert_eq!(rt; join.write(4_194_304, 3), Err(OUT));
    assert!(rt; most.len() == 4_194_304);
    assert_eq!(rt; most[4_194_302], 2);
    assert_eq!(rt; most[4_194_303], 7);
    Ok(())
}

#[test]
fn too_long_for_work(rt: HostRuntime) -> Result<(), Fail> {
    let mut bytes = vec![in rt.alloc(); 7u8; 4_194_305]?;
    assert_eq!(rt; Work::ask(&bytes), Err(WorkRefusal::TooLong));
    assert!(rt; Work::new(&mut bytes).is_err());
    assert_eq!(rt; write_bytes(&mut bytes, 0, 1), Err(WorkRefusal::TooLong));
    assert!(rt; bytes.len() == 4_194_305);
    assert_eq!(rt; bytes[0], 7);
    let _ = bytes.pop();
    assert_eq!(rt; Work::ask(&bytes), Ok(()));
    assert_eq!(rt; write_bytes(&mut bytes, 4_194_303, 1), Ok(Ok(())));
    assert_eq!(rt; write_bytes(&mut bytes, 4_194_304, 1), Ok(Err(OUT)));
    assert!(rt; bytes.len() == 4_194_304);
    assert_eq!(rt; bytes[4_194_303], 1);
    Ok(())
}

#[test]
fn numbers_and_questions(rt: HostRuntime) -> Result<(), Fail> {
    let rows = [
        (OUT, 31, "31: Is the address below the size?"),
        (MemoryRefusal::Spoiled, 32, "32: Is the byte not spoiled?"),
        (MemoryRefusal::NotOpen, 33, "33: Is the byte open?"),
    ];
    for (refusal, number, words) in rows {
        assert_eq!(rt; refusal.number(), number);
        assert_eq!(rt; format!(in rt.alloc(); "{refusal}")?.as_str(), words);
    }
    assert_eq!(rt; WorkRefusal::TooLong.number(), 30);
    assert_eq!(rt;
        format!(in rt.alloc(); "{}", WorkRefusal::TooLong)?.as_str(),
        "30: Are there at most 4194304 bytes?"
    );
    Ok(())
}
