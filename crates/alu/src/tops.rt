// Operations that make one word of the top.
ghost use Rattle.std.specs.Prelude.{◌≡◌};
ghost use Rattle.alu.specs.Alu.{append, flag_of, scanned, shifted};

use operations::kinds::{Scan, Shift};
use words::condition::Condition;
use words::flagged::Flagged;
use words::flags::Flags;
use words::status::{Status, flag_word};
use words::{bits, shifts, sums};

// The top shifted by a byte, with another byte below it.
pub fn append(u: u32, byte: u8) -> u32
    ensures { result ≡ append u byte }
{
    (u << 8) + u32::from(byte)
}

// Whether a condition holds of the top and the flags, as a word.
pub fn flag_of(condition: Condition, u: u32, flags: Flags) -> u32
    ensures { result ≡ flag_of condition u flags }
{
    flag_word(condition.holds(Status::of_word(u, flags)))
}

pub fn shifted(shift: Shift, u: u32, carry: bool) -> Flagged
    ensures { result ≡ shifted shift u carry }
{
    match shift {
        Shift::Asr => shifts::asr(u),
        Shift::Lsr => shifts::lsr(u),
        Shift::Ror => shifts::ror(u),
        Shift::Rorc => shifts::rorc(u, carry),
        Shift::Asl => shifts::asl(u),
        Shift::Lsl => shifts::lsl(u),
        Shift::Rol => shifts::rol(u),
        Shift::Rolc => shifts::rolc(u, carry),
    }
}

pub fn scanned(scan: Scan, u: u32) -> u32
    ensures { result ≡ scanned scan u }
{
    match scan {
        Scan::First => bits::ff1(u),
        Scan::Ones => bits::popc(u),
    }
}
