// A memory that is lent is a memory: it means what its owner's means.
ghost use Rattle.std.specs.Prelude.{◌≡◌, refl};
ghost use Rattle.std.proofs.Common.{◌∙◌};

use super::marks::Mark;
use super::meaning::Memory;
use super::refusals::MemoryRefusal;

impl<M: Memory> Memory for &mut M {
    ghost cells = { λ m. M.Memory.cells m.now };

    ghost lawful = { λ m. M.Memory.lawful m.now };

    ghost stays = { λ x y. (x.ghost_name ≡ y.ghost_name) × M.Memory.stays x.now y.now };

    ghost steady = { record {
      idle = λ x. (refl, M.Memory.steady.idle x.now);
      onward = λ x y z p q. (p.0 ∙ q.0, M.Memory.steady.onward x.now y.now z.now p.1 q.1);
      marks = λ x y p. M.Memory.steady.marks x.now y.now p.1;
    } };

    fn size(&self) -> usize {
        (**self).size()
    }

    fn mark(&mut self, at: usize) -> Result<Mark, MemoryRefusal> {
        (**self).mark(at)
    }

    fn read(&mut self, at: usize) -> Result<u8, MemoryRefusal> {
        (**self).read(at)
    }

    fn write(&mut self, at: usize, byte: u8) -> Result<(), MemoryRefusal> {
        (**self).write(at, byte)
    }
}
