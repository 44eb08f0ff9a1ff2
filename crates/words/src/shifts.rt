// Shifts and rotations by one place, with their flags.
ghost use Rattle.std.specs.Prelude.{◌≡◌, ◌+◌, ◌*◌, false, ◌+ℤ◌};
ghost use Rattle.words.specs.Shifts.{Back, Halves, RightExact, asl, asr, highest, left, lowest, lsl, lsr, right, rol, rolc, ror, rorc};
ghost use Rattle.words.specs.Sums.{CarryExact, ExactlyUnlessOverflow};
ghost use Rattle.words.specs.Words.{bit, signed};

use crate::flagged::Flagged;
use crate::flags::Flags;

fn lowest(u: u32) -> bool
    ensures { result ≡ lowest u }
{
    u % 2 == 1
}

fn highest(u: u32) -> bool
    ensures { result ≡ highest u }
{
    u >= 0x8000_0000
}

// No shift but asl, and no rotation, overflows.
fn carried(word: u32, carry: bool) -> Flagged
    ensures { result ≡ record { word = word; flags = record { carry = carry; overflow = false } } }
{
    Flagged {
        word,
        flags: Flags {
            carry,
            overflow: false,
        },
    }
}

fn right(u: u32, h: bool) -> Flagged
    ensures value { result ≡ right u h }
    ensures exact { RightExact u h result }
{
    carried((u >> 1) + (u32::from(h) << 31), lowest(u))
}

fn left(u: u32, l: bool) -> Flagged
    ensures value { result ≡ left u l }
    ensures exact { CarryExact (u * 2 + bit l) result }
{
    carried((u << 1) + u32::from(l), highest(u))
}

pub fn asr(n: u32) -> Flagged
    ensures value { result ≡ asr n }
    ensures exact { Halves n result }
{
    right(n, highest(n))
}

pub fn lsr(u: u32) -> Flagged
    ensures value { result ≡ lsr u }
    ensures exact { RightExact u false result }
{
    right(u, false)
}

#[tactic(auto, using(crate::proofs::Rotations::rotated_right))]
pub fn ror(u: u32) -> Flagged
    ensures value { result ≡ ror u }
    ensures back { (rol result.word).word ≡ u }
{
    carried(u.rotate_right(1), lowest(u))
}

pub fn rorc(u: u32, c: bool) -> Flagged
    ensures value { result ≡ rorc u c }
    ensures exact { RightExact u c result }
    ensures back { Back u c (rolc result.word result.flags.carry) }
{
    right(u, c)
}

pub fn asl(n: u32) -> Flagged
    ensures value { result ≡ asl n }
    ensures exact { ExactlyUnlessOverflow (signed n +ℤ signed n) result }
{
    let Flagged { word, flags } = lsl(n);
    Flagged {
        word,
        flags: Flags {
            overflow: highest(n) != highest(word),
            ..flags
        },
    }
}

pub fn lsl(u: u32) -> Flagged
    ensures value { result ≡ lsl u }
    ensures exact { CarryExact (u * 2) result }
{
    left(u, false)
}

#[tactic(auto, using(crate::proofs::Rotations::rotated_left))]
pub fn rol(u: u32) -> Flagged
    ensures value { result ≡ rol u }
    ensures back { (ror result.word).word ≡ u }
{
    carried(u.rotate_left(1), highest(u))
}

pub fn rolc(u: u32, c: bool) -> Flagged
    ensures value { result ≡ rolc u c }
    ensures exact { CarryExact (u * 2 + bit c) result }
    ensures back { Back u c (rorc result.word result.flags.carry) }
{
    left(u, c)
}
