// What a block carries.
ghost use Rattle.std.specs.Prelude.{◌≡◌, ◌≤◌, Some};
ghost use Rattle.blocks.specs.Kinds.{kind_byte, kind_of, most_blocks, unknown_text};

use std::error::Error;
use std::fmt;

#[derive(Clone, Copy, PartialEq, Eq, Debug)]
pub enum Kind {
    Code = 1,
    Table = 2,
}

impl Kind {
    // How many blocks an image of the kind has at most.
    pub fn most_blocks(self) -> usize
        ensures value { result ≡ most_blocks self }
        ensures bound { result ≤ 8192 }
    {
        match self {
            Kind::Code => 2048,
            Kind::Table => 8192,
        }
    }
}

// The byte that stands for the kind at the head of a block.
impl From<Kind> for u8 {
    ghost from_gives = { λ kind byte. byte ≡ kind_byte kind };

    fn from(kind: Kind) -> u8 {
        kind as u8
    }
}

// A byte that stands for no kind.
#[derive(Clone, Copy, PartialEq, Eq, Debug)]
pub struct UnknownKind {
    pub byte: u8,
}

impl TryFrom<u8> for Kind {
    type Error = UnknownKind;

    ghost try_from_gives = { λ byte result. result ≡ kind_of byte };

    fn try_from(byte: u8) -> Result<Kind, UnknownKind> {
        match byte {
            1 => Ok(Kind::Code),
            2 => Ok(Kind::Table),
            _ => Err(UnknownKind { byte }),
        }
    }
}

impl fmt::Display for UnknownKind {
    ghost output = { λ unknown. Some (unknown_text unknown.byte) };

    fn fmt<W: fmt::Write>(&self, f: &mut fmt::Formatter<W>) -> fmt::Result {
        write!(f, "no kind of block has the byte {}", self.byte)
    }
}

impl Error for UnknownKind {}
