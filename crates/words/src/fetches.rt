// What is fetched from a multiplier's latch: plain, negated, added to a number or subtracted from one.
ghost use Rattle.std.specs.Prelude.{◌≡◌, ◌+◌, ◌%◌, ◌^◌};
ghost use Rattle.words.specs.Latch.{DifferenceKept, SumKept, fetch, fetch_added, fetch_negated, fetch_subtracted};

// A number of 64 bits with the carry and the carry count, as an accumulating fetch leaves it and the next one takes it.
#[derive(Clone, Copy, PartialEq, Eq, Debug)]
pub struct Accumulated {
    pub value: u64,
    pub carry: bool,
    pub count: u32,
}

pub fn fetch(latch: u64) -> u64
    ensures { result ≡ fetch latch }
{
    latch
}

pub fn fetch_negated(latch: u64) -> u64
    ensures value { result ≡ fetch_negated latch }
    ensures exact { (latch + result) % 2 ^ 64 ≡ 0 }
{
    latch.wrapping_neg()
}

// The carry before it does not matter; nor does it in a subtraction.
pub fn fetch_added(latch: u64, before: Accumulated) -> Accumulated
    ensures value { result ≡ fetch_added latch before }
    ensures kept { SumKept latch before result }
{
    let (value, carry) = before.value.overflowing_add(latch);
    Accumulated {
        value,
        carry,
        count: before.count.wrapping_add(u32::from(carry)),
    }
}

pub fn fetch_subtracted(latch: u64, before: Accumulated) -> Accumulated
    ensures value { result ≡ fetch_subtracted latch before }
    ensures kept { DifferenceKept latch before result }
{
    let (value, borrowed) = before.value.overflowing_sub(latch);
    Accumulated {
        value,
        carry: !borrowed,
        count: before.count.wrapping_sub(u32::from(borrowed)),
    }
}
