// A sparse memory: a hole of spoiled bytes that takes no room, one kept byte, and sixteen open ones.
ghost use Rattle.std.specs.Prelude.{◌≡◌, ◌+◌, ◌<◌, ◌≤◌, length, replicate, Some, None, MatchResult, refl};
ghost use Rattle.std.proofs.Common.{sym, ap, ◌∙◌};
ghost use Rattle.memory.specs.Cells.{marks_of};
ghost use Rattle.memory_tests.specs.Sparse.{sparse_cells, StandsAt};
ghost use Rattle.memory_tests.specs.LawfulSparse.{sparse_lawful, sparse_marks};

use memory::marks::Mark;
use memory::meaning::Memory;
use memory::refusals::MemoryRefusal;
use std::cmp::Ordering;

#[derive(Drop)]
pub struct Sparse {
    hole: usize,
    stamp: u8,
    bytes: [u8; 16],
    ghost few: { hole ≤ 4194287 },
    ghost full: { length bytes ≡ 16 },
}

// What stands at an address.
enum Place {
    Hole,
    Stamp,
    // This one of the open bytes.
    Byte(usize),
}

impl Sparse {
    // None where it would have more bytes than a memory may have.
    pub fn new(hole: usize, stamp: u8) -> Option<Sparse>
        ensures { elim result [ Some m ↦ (m.hole ≡ hole) × (m.stamp ≡ stamp) × (m.bytes ≡ replicate 16 0) | None ↦ 4194287 < hole ] }
    {
        if hole > 4_194_287 {
            return None;
        }
        Some(Sparse {
            hole,
            stamp,
            bytes: [0; 16],
        })
    }

    fn place(&self, at: usize) -> Result<Place, MemoryRefusal>
        ensures { MatchResult result (StandsAt self.now.hole at) (λ refusal. (self.now.hole + 17 ≤ at) × (refusal ≡ MemoryRefusal.OutOfRange)) }
    {
        match at.cmp(&self.hole) {
            Ordering::Less => Ok(Place::Hole),
            Ordering::Equal => Ok(Place::Stamp),
            Ordering::Greater if at < self.size() => Ok(Place::Byte(at - self.hole - 1)),
            Ordering::Greater => Err(MemoryRefusal::OutOfRange),
        }
    }
}

#[tactic(auto, using(crate::proofs::Places::places))]
impl Memory for Sparse {
    ghost cells = { λ m. sparse_cells m.hole m.stamp m.bytes };

    ghost lawful = { λ m. sparse_lawful m.hole m.stamp m.bytes m.few m.full };

    ghost stays = { λ m n. m.hole ≡ n.hole };

    ghost steady = { record {
      idle = λ m. refl;
      onward = λ a b c p q. p ∙ q;
      marks = λ m n p. sparse_marks m.hole m.stamp n.stamp m.bytes n.bytes (m.full ∙ sym n.full) ∙ ap (λ h. marks_of (sparse_cells h n.stamp n.bytes)) p;
    } };

    fn size(&self) -> usize {
        self.hole + 1 + self.bytes.len()
    }

    fn mark(&mut self, at: usize) -> Result<Mark, MemoryRefusal> {
        Ok(match self.place(at)? {
            Place::Hole => Mark::Spoiled,
            Place::Stamp => Mark::Kept,
            Place::Byte(_) => Mark::Open,
        })
    }

    fn read(&mut self, at: usize) -> Result<u8, MemoryRefusal> {
        match self.place(at)? {
            Place::Hole => Err(MemoryRefusal::Spoiled),
            Place::Stamp => Ok(self.stamp),
            Place::Byte(i) => Ok(self.bytes[i]),
        }
    }

    fn write(&mut self, at: usize, byte: u8) -> Result<(), MemoryRefusal> {
        match self.place(at)? {
            Place::Hole => Err(MemoryRefusal::Spoiled),
            Place::Stamp => Err(MemoryRefusal::NotOpen),
            Place::Byte(i) => {
                self.bytes[i] = byte;
                Ok(())
            }
        }
    }
}
