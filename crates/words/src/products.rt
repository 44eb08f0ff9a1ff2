// What goes into a multiplier's latch: n1 is the word below the top, n2 the top.
ghost use Rattle.std.specs.Prelude.{◌≡◌, ◌*ℤ◌};
ghost use Rattle.std.specs.Int.{w64};
ghost use Rattle.std.proofs.Common.{to_z};
ghost use Rattle.words.specs.Latch.{mul, pass, umul};
ghost use Rattle.words.specs.Words.{signed};

use crate::pair::Pair;

pub fn mul(n1: u32, n2: u32) -> u64
    ensures value { result ≡ mul n1 n2 }
    ensures exact { to_z w64 result ≡ signed n1 *ℤ signed n2 }
{
    let product = i64::from(n1.cast_signed()) * i64::from(n2.cast_signed());
    product.cast_unsigned()
}

pub fn umul(u1: u32, u2: u32) -> u64
    ensures { result ≡ umul u1 u2 }
{
    u64::from(u1) * u64::from(u2)
}

pub fn pass(dl: u32, dh: u32) -> u64
    ensures { result ≡ pass dl dh }
{
    u64::from(Pair { low: dl, high: dh })
}
