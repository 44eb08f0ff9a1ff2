// Bits of words: none of these names a flag.
ghost use Rattle.std.specs.Prelude.{◌≡◌};
ghost use Rattle.words.specs.Bits.{FirstOne, Population, and, ff1, or, popc, xor};

pub fn or(u1: u32, u2: u32) -> u32
    ensures { result ≡ or u1 u2 }
{
    u1 | u2
}

pub fn and(u1: u32, u2: u32) -> u32
    ensures { result ≡ and u1 u2 }
{
    u1 & u2
}

pub fn xor(u1: u32, u2: u32) -> u32
    ensures { result ≡ xor u1 u2 }
{
    u1 ^ u2
}

// Finds the first one, from the highest bit down; 32 where there is none.
pub fn ff1(u: u32) -> u32
    ensures value { result ≡ ff1 u }
    ensures finds { FirstOne u result }
{
    u.leading_zeros()
}

// Counts the ones.
pub fn popc(u: u32) -> u32
    ensures value { result ≡ popc u }
    ensures counts { Population u result }
{
    u.count_ones()
}
