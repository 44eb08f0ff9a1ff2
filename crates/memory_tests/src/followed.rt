// Work that is proved once over every memory, done to memories that are lent: their owners know what it left.
ghost use Rattle.std.specs.Prelude.{◌≡◌};
ghost use Rattle.memory.specs.Cells.{written};
ghost use Rattle.memory.specs.Joins.{joined, front_after, back_after};

use memory::joins::Join;
use memory::meaning::Memory;

// Writes the same byte at two addresses of any memory, whatever it answers.
pub fn put_twice<M: Memory>(memory: &mut M, first: usize, second: usize, byte: u8)
    ensures stays { M.stays memory.old memory.new }
    ensures after { M.cells memory.new ≡ written (written (M.cells memory.old) first byte) second byte }
{
    let _ = memory.write(first, byte);
    let _ = memory.write(second, byte);
}

// The same, of two memories, the second behind the first.
#[tactic(auto, using(memory::proofs::Lending::front_after_lem, memory::proofs::Lending::back_after_lem))]
pub fn put_twice_joined<F: Memory, B: Memory>(
    front: &mut F,
    back: &mut B,
    first: usize,
    second: usize,
    byte: u8,
)
    ensures front_after { F.Memory.cells front.new ≡ front_after (F.Memory.cells front.old) (B.Memory.cells back.old) (written (written (joined (F.Memory.cells front.old) (B.Memory.cells back.old)) first byte) second byte) }
    ensures back_after { B.Memory.cells back.new ≡ back_after (F.Memory.cells front.old) (B.Memory.cells back.old) (written (written (joined (F.Memory.cells front.old) (B.Memory.cells back.old)) first byte) second byte) }
{
    let mut join = Join { front, back };
    put_twice(&mut join, first, second, byte);
}
