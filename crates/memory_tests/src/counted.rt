// A memory that counts what is asked of it.
use memory::marks::Mark;
use memory::meaning::Memory;
use memory::refusals::MemoryRefusal;

#[derive(Drop)]
pub struct Counted<M> {
    pub inner: M,
    pub asked: u64,
}

impl<M: Memory> Memory for Counted<M> {
    ghost cells = { λ c. M.Memory.cells c.inner };

    ghost lawful = { λ c. M.Memory.lawful c.inner };

    ghost stays = { λ c d. M.Memory.stays c.inner d.inner };

    ghost steady = { record {
      idle = λ c. M.Memory.steady.idle c.inner;
      onward = λ c d e. M.Memory.steady.onward c.inner d.inner e.inner;
      marks = λ c d. M.Memory.steady.marks c.inner d.inner;
    } };

    fn size(&self) -> usize {
        self.inner.size()
    }

    fn mark(&mut self, at: usize) -> Result<Mark, MemoryRefusal> {
        self.asked = self.asked.saturating_add(1);
        self.inner.mark(at)
    }

    fn read(&mut self, at: usize) -> Result<u8, MemoryRefusal> {
        self.asked = self.asked.saturating_add(1);
        self.inner.read(at)
    }

    fn write(&mut self, at: usize, byte: u8) -> Result<(), MemoryRefusal> {
        self.asked = self.asked.saturating_add(1);
        self.inner.write(at, byte)
    }
}
