// What lenders hold once the memory that borrowed from them is gone: as the last writes left it.
ghost use Rattle.std.specs.Prelude.{◌≡◌};
ghost use Rattle.questions.specs.Questions.{answered, held_after};
ghost use Rattle.memory.specs.Cells.{wrote, written, bytes_of};
ghost use Rattle.memory.specs.Works.{open_cells, work_asks};
ghost use Rattle.memory.specs.Joins.{joined, front_after, back_after};

use super::joins::Join;
use super::meaning::Memory;
use super::refusals::{MemoryRefusal, WorkRefusal};
use super::works::Work;

// Writes one byte of the caller's, as a memory: whether they can be one, and then the memory's answer.
#[tactic(auto, using(crate::proofs::Lending::bytes_written))]
pub fn write_bytes(
    bytes: &mut [u8],
    at: usize,
    byte: u8,
) -> Result<Result<(), MemoryRefusal>, WorkRefusal>
    ensures answers { result ≡ answered (work_asks bytes.old) (wrote (open_cells bytes.old) at) }
    ensures after { bytes.new ≡ held_after (work_asks bytes.old) (bytes_of (written (open_cells bytes.old) at byte)) bytes.old }
{
    Work::ask(bytes)?;
    let mut work = Work::over(bytes);
    Ok(work.write(at, byte))
}

// Writes one byte of two memories, the second behind the first.
#[tactic(auto, using(crate::proofs::Lending::front_after_lem, crate::proofs::Lending::back_after_lem))]
pub fn write_joined<F: Memory, B: Memory>(
    front: &mut F,
    back: &mut B,
    at: usize,
    byte: u8,
) -> Result<(), MemoryRefusal>
    ensures front_stays { F.Memory.stays front.old front.new }
    ensures back_stays { B.Memory.stays back.old back.new }
    ensures answers { result ≡ wrote (joined (F.Memory.cells front.old) (B.Memory.cells back.old)) at }
    ensures front_after { F.Memory.cells front.new ≡ front_after (F.Memory.cells front.old) (B.Memory.cells back.old) (written (joined (F.Memory.cells front.old) (B.Memory.cells back.old)) at byte) }
    ensures back_after { B.Memory.cells back.new ≡ back_after (F.Memory.cells front.old) (B.Memory.cells back.old) (written (joined (F.Memory.cells front.old) (B.Memory.cells back.old)) at byte) }
{
    let mut join = Join { front, back };
    join.write(at, byte)
}
