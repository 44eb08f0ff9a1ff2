// A memory by its meaning: a list of cells, each a byte and a mark.
ghost use Rattle.std.specs.Prelude.{◌≡◌, List, length};
ghost use Rattle.memory.specs.Cells.{Cell, Lawful, Steady, marked, read_out, wrote, written};

use super::marks::Mark;
use super::refusals::MemoryRefusal;

// How many bytes a memory has at most.
pub const LIMIT: usize = 4_194_304;

// `mark`, `read` and `write` take the memory mutably, so that a layer may note what is asked of it.
// `stays` and `same` are facts about a call, of the memory before and after it, so that no type holds them: each call states
// both, in words that are shorter than a name for the two.
pub trait Memory {
    // What the memory means.
    ghost cells: { Self → List Cell };

    // At most 4,194,304 cells, and a spoiled one is listed as 0.
    ghost lawful: { (m : Self) → Lawful (cells m) };

    // That the second value is the memory that the first one was, at a later time.
    ghost stays: { Self → Self → Type 0 };

    // A memory stays while nothing is asked and from call to call, with the same marks.
    ghost steady: { Steady cells stays };

    fn size(&self) -> usize
        ensures { result ≡ length (cells self.now) };

    fn mark(&mut self, at: usize) -> Result<Mark, MemoryRefusal>
        ensures stays { stays self.old self.new }
        ensures answers { result ≡ marked (cells self.old) at }
        ensures same { cells self.new ≡ cells self.old };

    fn read(&mut self, at: usize) -> Result<u8, MemoryRefusal>
        ensures stays { stays self.old self.new }
        ensures answers { result ≡ read_out (cells self.old) at }
        ensures same { cells self.new ≡ cells self.old };

    fn write(&mut self, at: usize, byte: u8) -> Result<(), MemoryRefusal>
        ensures stays { stays self.old self.new }
        ensures answers { result ≡ wrote (cells self.old) at }
        ensures after { cells self.new ≡ written (cells self.old) at byte };
}
