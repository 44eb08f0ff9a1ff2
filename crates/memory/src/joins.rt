// One memory behind another, cut at the limit: their lenders hold what became of it.
ghost use Rattle.std.specs.Prelude.{◌≡◌, ◌<◌, ◌≤◌, length, MatchResult, refl};
ghost use Rattle.std.proofs.Common.{◌∙◌};
ghost use Rattle.memory.specs.Joins.{joined, cut_off, LiesIn};
ghost use Rattle.memory.specs.LawfulJoins.{joined_lawful, joined-marks};

use super::marks::Mark;
use super::meaning::{LIMIT, Memory};
use super::refusals::MemoryRefusal;
use questions::ask;

// Either memory may be lent: `Join { front: &mut a, back: &mut b }`.
#[derive(Drop)]
pub struct Join<F, B> {
    pub front: F,
    pub back: B,
}

// Where an address of a join lies. (An `Option<usize>` would call the front an absence.)
enum Part {
    Front,
    // At this address of the back's own.
    Back(usize),
}

impl<F: Memory, B: Memory> Join<F, B> {
    // Past the limit an address lies in neither part.
    fn part(&self, at: usize) -> Result<Part, MemoryRefusal>
        ensures { MatchResult result (λ part. (at < 4194304) × LiesIn (length (F.cells self.now.front)) at part) (λ refusal. (4194304 ≤ at) × (refusal ≡ MemoryRefusal.OutOfRange)) }
    {
        ask(at < LIMIT, MemoryRefusal::OutOfRange)?;
        let front = self.front.size();
        if at < front {
            Ok(Part::Front)
        } else {
            Ok(Part::Back(at - front))
        }
    }
}

#[tactic(auto, using(crate::proofs::Joining::joins))]
impl<F: Memory, B: Memory> Memory for Join<F, B> {
    ghost cells = { λ j. joined (F.Memory.cells j.front) (B.Memory.cells j.back) };

    ghost lawful = { λ j. joined_lawful _ _ (F.Memory.lawful j.front) (B.Memory.lawful j.back) };

    ghost stays = { λ i j.
        F.Memory.stays i.front j.front
        × B.Memory.stays i.back j.back
        × (cut_off (F.Memory.cells i.front) (B.Memory.cells i.back) ≡ cut_off (F.Memory.cells j.front) (B.Memory.cells j.back)) };

    ghost steady = { record {
      idle = λ j. (F.Memory.steady.idle j.front, B.Memory.steady.idle j.back, refl);
      onward = λ i j k p q. (F.Memory.steady.onward i.front j.front k.front p.0 q.0, B.Memory.steady.onward i.back j.back k.back p.1 q.1, p.2 ∙ q.2);
      marks = λ i j p. joined-marks _ _ _ _ (F.Memory.steady.marks i.front j.front p.0) (B.Memory.steady.marks i.back j.back p.1);
    } };

    fn size(&self) -> usize {
        (self.front.size() + self.back.size()).min(LIMIT)
    }

    fn mark(&mut self, at: usize) -> Result<Mark, MemoryRefusal> {
        match self.part(at)? {
            Part::Front => self.front.mark(at),
            Part::Back(within) => self.back.mark(within),
        }
    }

    fn read(&mut self, at: usize) -> Result<u8, MemoryRefusal> {
        match self.part(at)? {
            Part::Front => self.front.read(at),
            Part::Back(within) => self.back.read(within),
        }
    }

    fn write(&mut self, at: usize, byte: u8) -> Result<(), MemoryRefusal> {
        match self.part(at)? {
            Part::Front => self.front.write(at, byte),
            Part::Back(within) => self.back.write(within, byte),
        }
    }
}
