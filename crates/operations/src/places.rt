// Places in stacks, and the stacks by number.
ghost use Rattle.operations.specs.Places.{near_number, nears, place_number, places, stack_number, stacks};
ghost use Rattle.std.specs.List.{slice_get};

use codes::numbers::Numbered;

// The eight topmost words of a stack; s0 is the top.
#[derive(Clone, Copy, PartialEq, Eq, Debug)]
pub enum Place {
    S0,
    S1,
    S2,
    S3,
    S4,
    S5,
    S6,
    S7,
}

impl Numbered for Place {
    ghost numbered = { slice_get places };

    ghost number_of = { place_number };

    ghost bound = { 8 };

    fn from_number(number: u8) -> Option<Place> {
        match number {
            0 => Some(Place::S0),
            1 => Some(Place::S1),
            2 => Some(Place::S2),
            3 => Some(Place::S3),
            4 => Some(Place::S4),
            5 => Some(Place::S5),
            6 => Some(Place::S6),
            7 => Some(Place::S7),
            _ => None,
        }
    }

    fn number(self) -> u8 {
        self as u8
    }
}

// The four topmost words: those that may be moved to the top, or read from another stack.
#[derive(Clone, Copy, PartialEq, Eq, Debug)]
pub enum Near {
    S0,
    S1,
    S2,
    S3,
}

impl Numbered for Near {
    ghost numbered = { slice_get nears };

    ghost number_of = { near_number };

    ghost bound = { 4 };

    fn from_number(number: u8) -> Option<Near> {
        match number {
            0 => Some(Near::S0),
            1 => Some(Near::S1),
            2 => Some(Near::S2),
            3 => Some(Near::S3),
            _ => None,
        }
    }

    fn number(self) -> u8 {
        self as u8
    }
}

#[derive(Clone, Copy, PartialEq, Eq, Debug)]
pub enum StackNumber {
    Zero,
    One,
    Two,
    Three,
}

impl Numbered for StackNumber {
    ghost numbered = { slice_get stacks };

    ghost number_of = { stack_number };

    ghost bound = { 4 };

    fn from_number(number: u8) -> Option<StackNumber> {
        match number {
            0 => Some(StackNumber::Zero),
            1 => Some(StackNumber::One),
            2 => Some(StackNumber::Two),
            3 => Some(StackNumber::Three),
            _ => None,
        }
    }

    fn number(self) -> u8 {
        self as u8
    }
}
