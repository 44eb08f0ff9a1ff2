// The sixteen conditions, in the order of their numbers.
ghost use Rattle.std.specs.Prelude.{◌≡◌, Some};
ghost use Rattle.words.specs.Numbers.{condition_number, condition_word, conditions};
ghost use Rattle.std.specs.List.{slice_get};

use codes::numbers::Numbered;
use std::fmt;

#[derive(Clone, Copy, PartialEq, Eq, Debug)]
pub enum Condition {
    True,
    Zero,
    Negative,
    Overflow,
    Below,
    Above,
    Less,
    Greater,
    False,
    NotZero,
    NotNegative,
    NoOverflow,
    NotBelow,
    NotAbove,
    NotLess,
    NotGreater,
}

impl Numbered for Condition {
    ghost numbered = { slice_get conditions };

    ghost number_of = { condition_number };

    ghost bound = { 16 };

    fn from_number(number: u8) -> Option<Condition> {
        match number {
            0 => Some(Condition::True),
            1 => Some(Condition::Zero),
            2 => Some(Condition::Negative),
            3 => Some(Condition::Overflow),
            4 => Some(Condition::Below),
            5 => Some(Condition::Above),
            6 => Some(Condition::Less),
            7 => Some(Condition::Greater),
            8 => Some(Condition::False),
            9 => Some(Condition::NotZero),
            10 => Some(Condition::NotNegative),
            11 => Some(Condition::NoOverflow),
            12 => Some(Condition::NotBelow),
            13 => Some(Condition::NotAbove),
            14 => Some(Condition::NotLess),
            15 => Some(Condition::NotGreater),
            _ => None,
        }
    }

    fn number(self) -> u8 {
        self as u8
    }
}

impl Condition {
    // As people write it, without the mark before it.
    pub fn word(self) -> &'static str
        ensures { result.now ≡ condition_word self }
    {
        match self {
            Condition::True => "t",
            Condition::Zero => "0=",
            Condition::Negative => "0<",
            Condition::Overflow => "ov",
            Condition::Below => "u<",
            Condition::Above => "u>",
            Condition::Less => "<",
            Condition::Greater => ">",
            Condition::False => "f",
            Condition::NotZero => "0<>",
            Condition::NotNegative => "0>=",
            Condition::NoOverflow => "no",
            Condition::NotBelow => "u>=",
            Condition::NotAbove => "u<=",
            Condition::NotLess => ">=",
            Condition::NotGreater => "<=",
        }
    }
}

impl fmt::Display for Condition {
    ghost output = { λ condition. Some (condition_word condition) };

    fn fmt<W: fmt::Write>(&self, f: &mut fmt::Formatter<W>) -> fmt::Result {
        f.write_str(self.word())
    }
}
