// Operations as people write them: `sub s1`, `pick 2s3`, `push -3`.
ghost use Rattle.operations.specs.Text.{near_text, operand_text, operation_text, place_text, source_text, stack_text};
ghost use Rattle.std.specs.Prelude.{Some};

use super::operands::{Operand, Source};
use super::operation::Operation;
use super::places::{Near, Place, StackNumber};
use codes::numbers::Numbered;
use std::fmt;

impl fmt::Display for Place {
    ghost output = { λ place. Some (place_text place) };

    fn fmt<W: fmt::Write>(&self, f: &mut fmt::Formatter<W>) -> fmt::Result {
        write!(f, "s{}", self.number())
    }
}

impl fmt::Display for Near {
    ghost output = { λ near. Some (near_text near) };

    fn fmt<W: fmt::Write>(&self, f: &mut fmt::Formatter<W>) -> fmt::Result {
        write!(f, "s{}", self.number())
    }
}

impl fmt::Display for StackNumber {
    ghost output = { λ stack. Some (stack_text stack) };

    fn fmt<W: fmt::Write>(&self, f: &mut fmt::Formatter<W>) -> fmt::Result {
        write!(f, "{}", self.number())
    }
}

impl fmt::Display for Source {
    ghost output = { λ source. Some (source_text source) };

    fn fmt<W: fmt::Write>(&self, f: &mut fmt::Formatter<W>) -> fmt::Result {
        match self {
            Source::Own(place) => write!(f, "{place}"),
            Source::Moved(near) => write!(f, "{near}p"),
            Source::Other(stack, near) => write!(f, "{stack}{near}"),
        }
    }
}

impl fmt::Display for Operand {
    ghost output = { λ operand. Some (operand_text operand) };

    fn fmt<W: fmt::Write>(&self, f: &mut fmt::Formatter<W>) -> fmt::Result {
        match self {
            Operand::Source(source) => write!(f, "{source}"),
            Operand::Constant(constant) => write!(f, "{constant}"),
        }
    }
}

impl fmt::Display for Operation {
    ghost output = { λ operation. Some (operation_text operation) };

    fn fmt<W: fmt::Write>(&self, f: &mut fmt::Formatter<W>) -> fmt::Result {
        match self {
            Operation::Nop => f.write_str("nop"),
            Operation::Push(value) => write!(f, "push {value}"),
            Operation::Append(byte) => write!(f, "<# {byte}"),
            Operation::Combine(binary, operand) => write!(f, "{binary} {operand}"),
            Operation::Latch(multiply, operand) => write!(f, "{multiply} {operand}"),
            Operation::Pick(source) => write!(f, "pick {source}"),
            Operation::Pin(place) => write!(f, "pin {place}"),
            Operation::Flag(condition) => write!(f, "{condition}"),
            Operation::Shift(shift) => write!(f, "{shift}"),
            Operation::Scan(scan) => write!(f, "{scan}"),
            Operation::Special(special) => write!(f, "{special}"),
            Operation::Fetch(fetch) => write!(f, "{fetch}"),
        }
    }
}
