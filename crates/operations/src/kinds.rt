// The operations of one kind, in the order of their numbers.
ghost use Rattle.operations.specs.Kinds.{binaries, binary_number, fetch_number, fetches, multiplies, multiply_number, scan_number, scans, shift_number, shifts, special_number, specials};
ghost use Rattle.std.specs.List.{slice_get};

use codes::numbers::Numbered;

// Makes one word of two.
#[derive(Clone, Copy, PartialEq, Eq, Debug)]
pub enum Binary {
    Or,
    And,
    Xor,
    Add,
    Sub,
    Subr,
    Addc,
    Subc,
    Subcr,
}

impl Numbered for Binary {
    ghost numbered = { slice_get binaries };

    ghost number_of = { binary_number };

    ghost bound = { 9 };

    fn from_number(number: u8) -> Option<Binary> {
        match number {
            0 => Some(Binary::Or),
            1 => Some(Binary::And),
            2 => Some(Binary::Xor),
            3 => Some(Binary::Add),
            4 => Some(Binary::Sub),
            5 => Some(Binary::Subr),
            6 => Some(Binary::Addc),
            7 => Some(Binary::Subc),
            8 => Some(Binary::Subcr),
            _ => None,
        }
    }

    fn number(self) -> u8 {
        self as u8
    }
}

// Puts two words, or their product, into the multiplier's latch.
#[derive(Clone, Copy, PartialEq, Eq, Debug)]
pub enum Multiply {
    Pass,
    Mul,
    Umul,
}

impl Numbered for Multiply {
    ghost numbered = { slice_get multiplies };

    ghost number_of = { multiply_number };

    ghost bound = { 3 };

    fn from_number(number: u8) -> Option<Multiply> {
        match number {
            0 => Some(Multiply::Pass),
            1 => Some(Multiply::Mul),
            2 => Some(Multiply::Umul),
            _ => None,
        }
    }

    fn number(self) -> u8 {
        self as u8
    }
}

// Shifts or rotates the top by one place.
#[derive(Clone, Copy, PartialEq, Eq, Debug)]
pub enum Shift {
    Asr,
    Lsr,
    Ror,
    Rorc,
    Asl,
    Lsl,
    Rol,
    Rolc,
}

impl Numbered for Shift {
    ghost numbered = { slice_get shifts };

    ghost number_of = { shift_number };

    ghost bound = { 8 };

    fn from_number(number: u8) -> Option<Shift> {
        match number {
            0 => Some(Shift::Asr),
            1 => Some(Shift::Lsr),
            2 => Some(Shift::Ror),
            3 => Some(Shift::Rorc),
            4 => Some(Shift::Asl),
            5 => Some(Shift::Lsl),
            6 => Some(Shift::Rol),
            7 => Some(Shift::Rolc),
            _ => None,
        }
    }

    fn number(self) -> u8 {
        self as u8
    }
}

// Counts bits of the top: those before the first one, or the ones.
#[derive(Clone, Copy, PartialEq, Eq, Debug)]
pub enum Scan {
    First,
    Ones,
}

impl Numbered for Scan {
    ghost numbered = { slice_get scans };

    ghost number_of = { scan_number };

    ghost bound = { 2 };

    fn from_number(number: u8) -> Option<Scan> {
        match number {
            0 => Some(Scan::First),
            1 => Some(Scan::Ones),
            _ => None,
        }
    }

    fn number(self) -> u8 {
        self as u8
    }
}

// Fetches or stores the instruction pointer or the carry count: ip@, ip!, cc@, cc!.
#[derive(Clone, Copy, PartialEq, Eq, Debug)]
pub enum Special {
    FetchIp,
    StoreIp,
    FetchCount,
    StoreCount,
}

impl Numbered for Special {
    ghost numbered = { slice_get specials };

    ghost number_of = { special_number };

    ghost bound = { 4 };

    fn from_number(number: u8) -> Option<Special> {
        match number {
            0 => Some(Special::FetchIp),
            1 => Some(Special::StoreIp),
            2 => Some(Special::FetchCount),
            3 => Some(Special::StoreCount),
            _ => None,
        }
    }

    fn number(self) -> u8 {
        self as u8
    }
}

// Reads the multiplier's latch: mul@, -mul@, mul@+, -mul@+.
#[derive(Clone, Copy, PartialEq, Eq, Debug)]
pub enum Fetch {
    Plain,
    Negated,
    Added,
    Subtracted,
}

impl Numbered for Fetch {
    ghost numbered = { slice_get fetches };

    ghost number_of = { fetch_number };

    ghost bound = { 4 };

    fn from_number(number: u8) -> Option<Fetch> {
        match number {
            0 => Some(Fetch::Plain),
            1 => Some(Fetch::Negated),
            2 => Some(Fetch::Added),
            3 => Some(Fetch::Subtracted),
            _ => None,
        }
    }

    fn number(self) -> u8 {
        self as u8
    }
}
