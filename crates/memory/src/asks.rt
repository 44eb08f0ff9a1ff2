// The questions of a write, asked without writing.
ghost use Rattle.std.specs.Prelude.{◌≡◌};
ghost use Rattle.questions.specs.Questions.{answered};
ghost use Rattle.memory.specs.Cells.{open_asks, wrote};

use super::marks::Mark;
use super::meaning::Memory;
use super::refusals::MemoryRefusal;

// What a write asks of a mark.
fn ask_open(mark: Mark) -> Result<(), MemoryRefusal>
    ensures { result ≡ answered (open_asks mark) tt }
{
    match mark {
        Mark::Open => Ok(()),
        Mark::Kept => Err(MemoryRefusal::NotOpen),
        Mark::Spoiled => Err(MemoryRefusal::Spoiled),
    }
}

// What a write would answer; nothing is written.
#[tactic(auto, using(crate::proofs::Laws::asked))]
pub fn ask_write<M: Memory>(memory: &mut M, at: usize) -> Result<(), MemoryRefusal>
    ensures stays { M.stays memory.old memory.new }
    ensures answers { result ≡ wrote (M.cells memory.old) at }
    ensures same { M.cells memory.new ≡ M.cells memory.old }
{
    ask_open(memory.mark(at)?)
}
