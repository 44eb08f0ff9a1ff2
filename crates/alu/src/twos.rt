// Operations that make one word of two: n1 is the word below the top, n2 the top.
ghost use Rattle.std.specs.Prelude.{◌≡◌};
ghost use Rattle.alu.specs.Alu.{combine};

use operations::kinds::Binary;
use words::flagged::Flagged;
use words::flags::Flags;
use words::{bits, shifts, sums};

// The word, and the flags after the operation: those that it does not name are the ones passed.
pub fn combine(binary: Binary, n1: u32, n2: u32, flags: Flags) -> Flagged
    ensures { result ≡ combine binary n1 n2 flags }
{
    let leave_flags = |word| Flagged { word, flags };
    match binary {
        Binary::Or => leave_flags(bits::or(n1, n2)),
        Binary::And => leave_flags(bits::and(n1, n2)),
        Binary::Xor => leave_flags(bits::xor(n1, n2)),
        Binary::Add => sums::add(n1, n2),
        Binary::Sub => sums::sub(n1, n2),
        Binary::Subr => sums::subr(n1, n2),
        Binary::Addc => sums::addc(n1, n2, flags.carry),
        Binary::Subc => sums::subc(n1, n2, flags.carry),
        Binary::Subcr => sums::subcr(n1, n2, flags.carry),
    }
}
