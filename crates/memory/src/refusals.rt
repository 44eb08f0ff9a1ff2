// The questions that a memory asks, by the numbers under which it refuses.
ghost use Rattle.std.specs.Prelude.{Some};
ghost use Rattle.memory.specs.Refusals.{memory_number, memory_question, memory_text, work_number, work_question, work_text};

use questions::refusals::Refusal;
use std::error::Error;
use std::fmt;

// Why a mark is not given, a byte not read or not written.
#[derive(Clone, Copy, PartialEq, Eq, Debug)]
pub enum MemoryRefusal {
    OutOfRange = 31,
    Spoiled = 32,
    NotOpen = 33,
}

impl Refusal for MemoryRefusal {
    ghost number = { memory_number };

    ghost question = { memory_question };

    fn number(self) -> u16 {
        self as u16
    }

    fn question(self) -> &'static str {
        match self {
            MemoryRefusal::OutOfRange => "Is the address below the size?",
            MemoryRefusal::Spoiled => "Is the byte not spoiled?",
            MemoryRefusal::NotOpen => "Is the byte open?",
        }
    }
}

impl fmt::Display for MemoryRefusal {
    ghost output = { λ refusal. Some (memory_text refusal) };

    fn fmt<W: fmt::Write>(&self, f: &mut fmt::Formatter<W>) -> fmt::Result {
        self.show(f)
    }
}

// Why bytes are not made a memory. No memory ever answers with it, so it has a type of its own.
#[derive(Clone, Copy, PartialEq, Eq, Debug)]
pub enum WorkRefusal {
    TooLong = 30,
}

impl Refusal for WorkRefusal {
    ghost number = { work_number };

    ghost question = { work_question };

    fn number(self) -> u16 {
        self as u16
    }

    fn question(self) -> &'static str {
        match self {
            WorkRefusal::TooLong => "Are there at most 4194304 bytes?",
        }
    }
}

impl fmt::Display for WorkRefusal {
    ghost output = { λ refusal. Some (work_text refusal) };

    fn fmt<W: fmt::Write>(&self, f: &mut fmt::Formatter<W>) -> fmt::Result {
        self.show(f)
    }
}

impl Error for MemoryRefusal {}

impl Error for WorkRefusal {}
