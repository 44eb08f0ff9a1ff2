// Second operands: places in stacks, and four constants.
ghost use Rattle.std.specs.Prelude.{◌≡◌};
ghost use Rattle.operations.specs.Operands.{constant_number, constants, constant_value, decoded_operand, decoded_source, encoded_operand, encoded_source, source_operand};
ghost use Rattle.std.specs.List.{slice_get};

use super::places::{Near, Place, StackNumber};
use codes::numbers::Numbered;

#[derive(Clone, Copy, PartialEq, Eq, Debug)]
pub enum Constant {
    Zero,
    MinusOne,
    Max,
    Min,
}

impl Numbered for Constant {
    ghost numbered = { slice_get constants };

    ghost number_of = { constant_number };

    ghost bound = { 4 };

    fn from_number(number: u8) -> Option<Constant> {
        match number {
            0 => Some(Constant::Zero),
            1 => Some(Constant::MinusOne),
            2 => Some(Constant::Max),
            3 => Some(Constant::Min),
            _ => None,
        }
    }

    fn number(self) -> u8 {
        self as u8
    }
}

impl Constant {
    pub fn word(self) -> u32
        ensures { result ≡ constant_value self }
    {
        match self {
            Constant::Zero => 0,
            Constant::MinusOne => 0xffff_ffff,
            Constant::Max => 0x7fff_ffff,
            Constant::Min => 0x8000_0000,
        }
    }
}

// Where a word is taken from: what pick may have.
#[derive(Clone, Copy, PartialEq, Eq, Debug)]
pub enum Source {
    Own(Place),
    Moved(Near),
    Other(StackNumber, Near),
}

impl Numbered for Source {
    ghost numbered = { decoded_source };

    ghost number_of = { encoded_source };

    ghost bound = { 28 };

    fn from_number(number: u8) -> Option<Source> {
        match number {
            0..=7 => Some(Source::Own(Place::from_number(number)?)),
            8..=11 => Some(Source::Moved(Near::from_number(number - 8)?)),
            _ => {
                let stack = StackNumber::from_number((number - 12) / 4)?;
                Some(Source::Other(stack, Near::from_number((number - 12) % 4)?))
            }
        }
    }

    fn number(self) -> u8 {
        match self {
            Source::Own(place) => place.number(),
            Source::Moved(near) => 8 + near.number(),
            Source::Other(stack, near) => 12 + 4 * stack.number() + near.number(),
        }
    }
}

// What an operation has beside the top of its stack.
#[derive(Clone, Copy, PartialEq, Eq, Debug)]
pub enum Operand {
    Source(Source),
    Constant(Constant),
}

impl From<Source> for Operand {
    ghost from_gives = { λ place operand. operand ≡ source_operand place };

    fn from(place: Source) -> Operand {
        Operand::Source(place)
    }
}

impl Numbered for Operand {
    ghost numbered = { decoded_operand };

    ghost number_of = { encoded_operand };

    ghost bound = { 32 };

    fn from_number(number: u8) -> Option<Operand> {
        if number < 28 {
            Some(Operand::from(Source::from_number(number)?))
        } else {
            Some(Operand::Constant(Constant::from_number(number - 28)?))
        }
    }

    fn number(self) -> u8 {
        match self {
            Operand::Source(source) => source.number(),
            Operand::Constant(constant) => 28 + constant.number(),
        }
    }
}
