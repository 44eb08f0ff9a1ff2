// Two words as one number of 64 bits; on a stack the high word lies above the low one.
ghost use Rattle.std.specs.Prelude.{◌≡◌};
ghost use Rattle.words.specs.Latch.{number, pair_of};

#[derive(Clone, Copy, PartialEq, Eq, Debug)]
pub struct Pair {
    pub low: u32,
    pub high: u32,
}

impl From<Pair> for u64 {
    ghost from_gives = { λ pair d. d ≡ number pair };

    fn from(pair: Pair) -> u64
        ensures value { result ≡ number pair }
        ensures back { pair_of result ≡ pair }
    {
        u64::from(pair.high) * 0x1_0000_0000 + u64::from(pair.low)
    }
}

impl From<u64> for Pair {
    ghost from_gives = { λ d pair. pair ≡ pair_of d };

    fn from(d: u64) -> Pair
        ensures value { result ≡ pair_of d }
        ensures back { number result ≡ d }
    {
        Pair {
            low: (d % 0x1_0000_0000) as u32,
            high: (d / 0x1_0000_0000) as u32,
        }
    }
}
