// A slot's operation.
ghost use Rattle.std.specs.Prelude.{slice_index};
ghost use Rattle.operations.specs.Operations.{decoded_operation, encoded_operation};

use super::kinds::{Binary, Fetch, Multiply, Scan, Shift, Special};
use super::operands::{Operand, Source};
use super::places::Place;
use codes::bytes::Coded;
use codes::numbers::Numbered;
use words::condition::Condition;

#[derive(Clone, Copy, PartialEq, Eq, Debug)]
pub enum Operation {
    Nop,
    Push(i8),
    Append(u8),
    Combine(Binary, Operand),
    Latch(Multiply, Operand),
    Pick(Source),
    Pin(Place),
    Flag(Condition),
    Shift(Shift),
    Scan(Scan),
    Special(Special),
    Fetch(Fetch),
}

// An operation byte and its argument byte.
impl Coded<2> for Operation {
    ghost decoded = { λ bytes. decoded_operation (slice_index bytes 0) (slice_index bytes 1) };

    ghost encoded = { encoded_operation };

    fn decode(bytes: &[u8; 2]) -> Option<Operation> {
        match *bytes {
            [0, 0] => Some(Operation::Nop),
            [1, value] => Some(Operation::Push(value.cast_signed())),
            [2, byte] => Some(Operation::Append(byte)),
            [number @ 3..=11, byte] => Some(Operation::Combine(
                Binary::from_number(number - 3)?,
                Operand::from_number(byte)?,
            )),
            [number @ 12..=14, operand] => Some(Operation::Latch(
                Multiply::from_number(number - 12)?,
                Operand::from_number(operand)?,
            )),
            [15, source] => Some(Operation::Pick(Source::from_number(source)?)),
            [16, place] => Some(Operation::Pin(Place::from_number(place)?)),
            [number @ 17..=32, 0] => Some(Operation::Flag(Condition::from_number(number - 17)?)),
            [number @ 33..=40, 0] => Some(Operation::Shift(Shift::from_number(number - 33)?)),
            [number @ 41..=42, 0] => Some(Operation::Scan(Scan::from_number(number - 41)?)),
            [number @ 43..=46, 0] => Some(Operation::Special(Special::from_number(number - 43)?)),
            [number @ 47..=50, 0] => Some(Operation::Fetch(Fetch::from_number(number - 47)?)),
            _ => None,
        }
    }

    fn encode(self) -> [u8; 2] {
        match self {
            Operation::Nop => [0, 0],
            Operation::Push(value) => [1, value.cast_unsigned()],
            Operation::Append(byte) => [2, byte],
            Operation::Combine(binary, operand) => [3 + binary.number(), operand.number()],
            Operation::Latch(multiply, operand) => [12 + multiply.number(), operand.number()],
            Operation::Pick(source) => [15, source.number()],
            Operation::Pin(place) => [16, place.number()],
            Operation::Flag(condition) => [17 + condition.number(), 0],
            Operation::Shift(shift) => [33 + shift.number(), 0],
            Operation::Scan(scan) => [41 + scan.number(), 0],
            Operation::Special(special) => [43 + special.number(), 0],
            Operation::Fetch(fetch) => [47 + fetch.number(), 0],
        }
    }
}
