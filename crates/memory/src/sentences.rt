// The calls of any memory, with its rules in plain sentences. They are no methods of the trait: that would give each call two
// names there, and they differ only in what they say.
ghost use Rattle.std.specs.Prelude.{◌≡◌, ℕ, ◌<◌, ◌≤◌, length, Ok, Err, ◌≢◌};
ghost use Rattle.memory.specs.Cells.{cell_at, marks_of, open_cell, marked, read_out, wrote, written};

use super::marks::Mark;
use super::meaning::Memory;
use super::refusals::MemoryRefusal;

// The number of bytes.
#[tactic(auto, using(crate::proofs::Laws::sentences))]
pub fn size_of<M: Memory>(memory: &M) -> usize
    ensures value { result ≡ length (M.cells memory.now) }
    ensures bound { result ≤ 4194304 }
{
    memory.size()
}

// The mark at each address below the size; nothing changes.
#[tactic(auto, using(crate::proofs::Laws::sentences))]
pub fn mark_at<M: Memory>(memory: &mut M, at: usize) -> Result<Mark, MemoryRefusal>
    ensures stays { M.stays memory.old memory.new }
    ensures answers { result ≡ marked (M.cells memory.old) at }
    ensures outside { length (M.cells memory.old) ≤ at → result ≡ Err MemoryRefusal.OutOfRange }
    ensures inside { at < length (M.cells memory.old) → result ≡ Ok (cell_at (M.cells memory.old) at).mark }
    ensures same { M.cells memory.new ≡ M.cells memory.old }
{
    memory.mark(at)
}

// The byte at each address below the size that is not spoiled; nothing changes.
#[tactic(auto, using(crate::proofs::Laws::sentences))]
pub fn read_at<M: Memory>(memory: &mut M, at: usize) -> Result<u8, MemoryRefusal>
    ensures stays { M.stays memory.old memory.new }
    ensures answers { result ≡ read_out (M.cells memory.old) at }
    ensures outside { length (M.cells memory.old) ≤ at → result ≡ Err MemoryRefusal.OutOfRange }
    ensures spoiled { at < length (M.cells memory.old) → (cell_at (M.cells memory.old) at).mark ≡ Mark.Spoiled → result ≡ Err MemoryRefusal.Spoiled }
    ensures sound { at < length (M.cells memory.old) → ((cell_at (M.cells memory.old) at).mark ≢ Mark.Spoiled) → result ≡ Ok (cell_at (M.cells memory.old) at).byte }
    ensures same { M.cells memory.new ≡ M.cells memory.old }
{
    memory.read(at)
}

// Puts a byte where it is open. It is there then, and no other byte is another; a refusal changes nothing, and sizes and marks never change.
#[tactic(auto, using(crate::proofs::Laws::sentences))]
pub fn write_at<M: Memory>(memory: &mut M, at: usize, byte: u8) -> Result<(), MemoryRefusal>
    ensures stays { M.stays memory.old memory.new }
    ensures answers { result ≡ wrote (M.cells memory.old) at }
    ensures after { M.cells memory.new ≡ written (M.cells memory.old) at byte }
    ensures outside { length (M.cells memory.old) ≤ at → result ≡ Err MemoryRefusal.OutOfRange }
    ensures spoiled { at < length (M.cells memory.old) → (cell_at (M.cells memory.old) at).mark ≡ Mark.Spoiled → result ≡ Err MemoryRefusal.Spoiled }
    ensures kept { at < length (M.cells memory.old) → (cell_at (M.cells memory.old) at).mark ≡ Mark.Kept → result ≡ Err MemoryRefusal.NotOpen }
    ensures accepted { at < length (M.cells memory.old) → (cell_at (M.cells memory.old) at).mark ≡ Mark.Open → result ≡ Ok tt }
    ensures there { result ≡ Ok tt → cell_at (M.cells memory.new) at ≡ open_cell byte }
    ensures others { (i : ℕ) → (i ≢ at) → cell_at (M.cells memory.new) i ≡ cell_at (M.cells memory.old) i }
    ensures refused { (e : MemoryRefusal) → result ≡ Err e → M.cells memory.new ≡ M.cells memory.old }
    ensures size { length (M.cells memory.new) ≡ length (M.cells memory.old) }
    ensures marks { marks_of (M.cells memory.new) ≡ marks_of (M.cells memory.old) }
{
    memory.write(at, byte)
}
