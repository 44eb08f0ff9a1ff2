// What a move is put together from, by number.
ghost use Rattle.std.specs.Prelude.{◌≡◌};
ghost use Rattle.moves.specs.Parts.{half_number, halves, mode_number, modes, register_number, registers, set_number, sets, size_bytes, size_number, sizes};
ghost use Rattle.std.specs.List.{slice_get};

use codes::numbers::Numbered;

// How many bytes a load or a store takes.
#[derive(Clone, Copy, PartialEq, Eq, Debug)]
pub enum Size {
    One,
    Two,
    Four,
    Eight,
}

impl Numbered for Size {
    ghost numbered = { slice_get sizes };

    ghost number_of = { size_number };

    ghost bound = { 4 };

    fn from_number(number: u8) -> Option<Size> {
        match number {
            0 => Some(Size::One),
            1 => Some(Size::Two),
            2 => Some(Size::Four),
            3 => Some(Size::Eight),
            _ => None,
        }
    }

    fn number(self) -> u8 {
        self as u8
    }
}

impl Size {
    pub fn bytes(self) -> u8
        ensures { result ≡ size_bytes self }
    {
        match self {
            Size::One => 1,
            Size::Two => 2,
            Size::Four => 4,
            Size::Eight => 8,
        }
    }
}

// Which of a side's four sets of registers.
#[derive(Clone, Copy, PartialEq, Eq, Debug)]
pub enum SetNumber {
    Zero,
    One,
    Two,
    Three,
}

impl Numbered for SetNumber {
    ghost numbered = { slice_get sets };

    ghost number_of = { set_number };

    ghost bound = { 4 };

    fn from_number(number: u8) -> Option<SetNumber> {
        match number {
            0 => Some(SetNumber::Zero),
            1 => Some(SetNumber::One),
            2 => Some(SetNumber::Two),
            3 => Some(SetNumber::Three),
            _ => None,
        }
    }

    fn number(self) -> u8 {
        self as u8
    }
}

// Which of a side's two stacks: 0 or 2 of the even side, 1 or 3 of the odd one.
#[derive(Clone, Copy, PartialEq, Eq, Debug)]
pub enum Half {
    Lower,
    Higher,
}

impl Numbered for Half {
    ghost numbered = { slice_get halves };

    ghost number_of = { half_number };

    ghost bound = { 2 };

    fn from_number(number: u8) -> Option<Half> {
        match number {
            0 => Some(Half::Lower),
            1 => Some(Half::Higher),
            _ => None,
        }
    }

    fn number(self) -> u8 {
        self as u8
    }
}

// What is added to R: the set's N, or the top of the stack.
#[derive(Clone, Copy, PartialEq, Eq, Debug)]
pub enum Index {
    N,
    Top,
}

// Where a load or store goes, and whether R steps: R, R+i, R i+ and R+i+.
#[derive(Clone, Copy, PartialEq, Eq, Debug)]
pub enum Mode {
    Still,
    Plus(Index),
    Step(Index),
    PlusStep(Index),
}

impl Numbered for Mode {
    ghost numbered = { slice_get modes };

    ghost number_of = { mode_number };

    ghost bound = { 7 };

    fn from_number(number: u8) -> Option<Mode> {
        match number {
            0 => Some(Mode::Still),
            1 => Some(Mode::Plus(Index::N)),
            2 => Some(Mode::Step(Index::N)),
            3 => Some(Mode::PlusStep(Index::N)),
            4 => Some(Mode::Plus(Index::Top)),
            5 => Some(Mode::Step(Index::Top)),
            6 => Some(Mode::PlusStep(Index::Top)),
            _ => None,
        }
    }

    fn number(self) -> u8 {
        match self {
            Mode::Still => 0,
            Mode::Plus(Index::N) => 1,
            Mode::Step(Index::N) => 2,
            Mode::PlusStep(Index::N) => 3,
            Mode::Plus(Index::Top) => 4,
            Mode::Step(Index::Top) => 5,
            Mode::PlusStep(Index::Top) => 6,
        }
    }
}

// The registers of a set.
#[derive(Clone, Copy, PartialEq, Eq, Debug)]
pub enum Register {
    R,
    N,
    L,
    F,
}

impl Numbered for Register {
    ghost numbered = { slice_get registers };

    ghost number_of = { register_number };

    ghost bound = { 4 };

    fn from_number(number: u8) -> Option<Register> {
        match number {
            0 => Some(Register::R),
            1 => Some(Register::N),
            2 => Some(Register::L),
            3 => Some(Register::F),
            _ => None,
        }
    }

    fn number(self) -> u8 {
        self as u8
    }
}
