// The questions that sealing and opening ask, by the numbers under which they refuse.
ghost use Rattle.std.specs.Prelude.{Some};
ghost use Rattle.blocks.specs.Refusals.{seal_number, seal_question, seal_text, block_number, block_question, block_text};

use questions::refusals::Refusal;
use std::error::Error;
use std::fmt;

// Why a payload is not sealed.
#[derive(Clone, Copy, PartialEq, Eq, Debug)]
pub enum SealRefusal {
    UnknownKind = 1,
    PayloadLength = 2,
    TargetLength = 3,
}

impl Refusal for SealRefusal {
    ghost number = { seal_number };

    ghost question = { seal_question };

    fn number(self) -> u16 {
        self as u16
    }

    fn question(self) -> &'static str {
        match self {
            SealRefusal::UnknownKind => "Is the kind 1 (code) or 2 (table)?",
            SealRefusal::PayloadLength => "Does the payload have 496 bytes?",
            SealRefusal::TargetLength => "Does the target have 512 bytes?",
        }
    }
}

impl fmt::Display for SealRefusal {
    ghost output = { λ refusal. Some (seal_text refusal) };

    fn fmt<W: fmt::Write>(&self, f: &mut fmt::Formatter<W>) -> fmt::Result {
        self.show(f)
    }
}

impl Error for SealRefusal {}

// Why a block is not opened.
#[derive(Clone, Copy, PartialEq, Eq, Debug)]
pub enum BlockRefusal {
    NotWhole = 4,
    WrongKind = 5,
    WrongEdition = 6,
    WrongPlace = 7,
    NotZero = 8,
    WrongCheck = 9,
}

impl Refusal for BlockRefusal {
    ghost number = { block_number };

    ghost question = { block_question };

    fn number(self) -> u16 {
        self as u16
    }

    fn question(self) -> &'static str {
        match self {
            BlockRefusal::NotWhole => "Is it a whole block of 512 bytes?",
            BlockRefusal::WrongKind => "Is the kind the one asked for?",
            BlockRefusal::WrongEdition => "Is the edition 1?",
            BlockRefusal::WrongPlace => "Is the block's number its place in the image?",
            BlockRefusal::NotZero => "Are bytes 4 to 11 zero?",
            BlockRefusal::WrongCheck => "Is the check word right?",
        }
    }
}

impl fmt::Display for BlockRefusal {
    ghost output = { λ refusal. Some (block_text refusal) };

    fn fmt<W: fmt::Write>(&self, f: &mut fmt::Formatter<W>) -> fmt::Result {
        self.show(f)
    }
}

impl Error for BlockRefusal {}
