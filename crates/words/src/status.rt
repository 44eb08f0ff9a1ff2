ghost use Rattle.std.specs.Prelude.{◌≡◌, not};
ghost use Rattle.words.specs.Conditions.{EightApart, flag_word, holds, of_pair, of_word, opposite};

use crate::condition::Condition;
use crate::flags::Flags;
use crate::pair::Pair;

// What a condition looks at: whether the number on top is 0 or negative, and the flags.
#[derive(Clone, Copy, PartialEq, Eq, Debug)]
pub struct Status {
    pub zero: bool,
    pub negative: bool,
    pub flags: Flags,
}

impl Status {
    // A word on top.
    pub fn of_word(word: u32, flags: Flags) -> Status
        ensures { result ≡ of_word word flags }
    {
        Status {
            zero: word == 0,
            negative: word.cast_signed() < 0,
            flags,
        }
    }

    // A pair on top, its high word uppermost: it is 0 only if both its words are.
    pub fn of_pair(pair: Pair, flags: Flags) -> Status
        ensures { result ≡ of_pair pair flags }
    {
        Status {
            zero: pair.low == 0 && pair.high == 0,
            negative: pair.high.cast_signed() < 0,
            flags,
        }
    }
}

impl Condition {
    pub fn holds(self, status: Status) -> bool
        ensures value { result ≡ holds self status }
        ensures opposite { holds (opposite self) status ≡ not result }
        ensures numbers { EightApart }
    {
        let Status {
            zero,
            negative,
            flags: Flags { carry, overflow },
        } = status;
        match self {
            Condition::True => true,
            Condition::Zero => zero,
            Condition::Negative => negative,
            Condition::Overflow => overflow,
            Condition::Below => !carry,
            Condition::Above => carry && !zero,
            Condition::Less => negative != overflow,
            Condition::Greater => !zero && negative == overflow,
            Condition::False => false,
            Condition::NotZero => !zero,
            Condition::NotNegative => !negative,
            Condition::NoOverflow => !overflow,
            Condition::NotBelow => carry,
            Condition::NotAbove => !carry || zero,
            Condition::NotLess => negative == overflow,
            Condition::NotGreater => zero || negative != overflow,
        }
    }
}

// A flag as a word: all bits set, or none.
pub fn flag_word(flag: bool) -> u32
    ensures { result ≡ flag_word flag }
{
    if flag { u32::MAX } else { 0 }
}
