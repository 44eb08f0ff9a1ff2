// The caller's bytes as a memory, all open.
ghost use Rattle.std.specs.Prelude.{◌≡◌, ◌<◌, ◌≤◌, length, Some, None, MatchResult};
ghost use Rattle.questions.specs.Questions.{answered};
ghost use Rattle.memory.specs.Works.{open_cells, work_asks, SameBytes, Lent};
ghost use Rattle.memory.specs.LawfulWorks.{opens_lawful, opens_steady};

use super::marks::Mark;
use super::meaning::{LIMIT, Memory};
use super::refusals::{MemoryRefusal, WorkRefusal};
use questions::ask;

#[derive(Drop)]
pub struct Work<'a> {
    bytes: &'a mut [u8],
}

impl<'a> Work<'a> {
    // Whether the bytes can be a memory. They are only looked at, so that a refusal leaves them alone.
    pub fn ask(bytes: &[u8]) -> Result<(), WorkRefusal>
        ensures { result ≡ answered (work_asks bytes.now) tt }
    {
        ask(bytes.len() <= LIMIT, WorkRefusal::TooLong)
    }

    // The memory of the bytes that `ask` accepts, or of as many as a memory may have. They go back to the caller with it.
    pub fn over(bytes: &'a mut [u8]) -> Work<'a>
        ensures { Lent bytes.entry result.bytes }
    {
        Work { bytes }
    }

    // Asks first.
    pub fn new(bytes: &'a mut [u8]) -> Result<Work<'a>, WorkRefusal>
        ensures { MatchResult result (λ w. (work_asks bytes.old ≡ None) × Lent bytes.entry w.bytes) (λ e. work_asks bytes.old ≡ Some e) }
    {
        Work::ask(bytes)?;
        Ok(Work::over(bytes))
    }

    // Whether an address is below the size.
    fn inside(&self, at: usize) -> Result<(), MemoryRefusal>
        ensures { MatchResult result (λ _. at < length (open_cells self.now.bytes.now)) (λ refusal. (length (open_cells self.now.bytes.now) ≤ at) × (refusal ≡ MemoryRefusal.OutOfRange)) }
    {
        ask(at < self.size(), MemoryRefusal::OutOfRange)
    }
}

#[tactic(auto, using(crate::proofs::Opens::opens))]
impl<'a> Memory for Work<'a> {
    ghost cells = { λ w. open_cells w.bytes.now };

    ghost lawful = { λ w. opens_lawful w.bytes.now };

    ghost stays = { λ v w. SameBytes v.bytes w.bytes };

    ghost steady = { record {
      idle = λ w. opens_steady.idle w.bytes;
      onward = λ u v w. opens_steady.onward u.bytes v.bytes w.bytes;
      marks = λ v w. opens_steady.marks v.bytes w.bytes;
    } };

    fn size(&self) -> usize {
        self.bytes.len().min(LIMIT)
    }

    fn mark(&mut self, at: usize) -> Result<Mark, MemoryRefusal> {
        self.inside(at)?;
        Ok(Mark::Open)
    }

    fn read(&mut self, at: usize) -> Result<u8, MemoryRefusal> {
        self.inside(at)?;
        Ok(self.bytes[at])
    }

    fn write(&mut self, at: usize, byte: u8) -> Result<(), MemoryRefusal> {
        self.inside(at)?;
        self.bytes[at] = byte;
        Ok(())
    }
}
