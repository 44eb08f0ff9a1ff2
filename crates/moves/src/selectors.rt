// Selector bytes: a set and a stack in the low half, a mode or a register in the high half.
ghost use Rattle.moves.specs.Selectors.{access_selector, decoded_access, decoded_port, decoded_reach, encoded_port, reach_selector};

use super::parts::{Half, Mode, Register, SetNumber};
use codes::numbers::Numbered;

// The set of registers and the stack that a move joins.
#[derive(Clone, Copy, PartialEq, Eq, Debug)]
pub struct Port {
    pub set: SetNumber,
    pub stack: Half,
}

// The low half of a selector.
impl Numbered for Port {
    ghost numbered = { decoded_port };

    ghost number_of = { encoded_port };

    ghost bound = { 8 };

    fn from_number(number: u8) -> Option<Port> {
        let set = SetNumber::from_number(number % 4)?;
        let stack = Half::from_number(number / 4)?;
        Some(Port { set, stack })
    }

    fn number(self) -> u8 {
        self.set.number() + 4 * self.stack.number()
    }
}

// Where a load or a store reaches.
#[derive(Clone, Copy, PartialEq, Eq, Debug)]
pub struct Reach {
    pub port: Port,
    pub mode: Mode,
}

impl Numbered for Reach {
    ghost numbered = { decoded_reach };

    ghost number_of = { reach_selector };

    ghost bound = { 104 };

    fn from_number(number: u8) -> Option<Reach> {
        let port = Port::from_number(number % 16)?;
        let mode = Mode::from_number(number / 16)?;
        Some(Reach { port, mode })
    }

    #[tactic(auto, using(codes::proofs::Halves::low_half, codes::proofs::Halves::high_half))]
    fn number(self) -> u8 {
        self.port.number() + 16 * self.mode.number()
    }
}

// The register that a set or a get names.
#[derive(Clone, Copy, PartialEq, Eq, Debug)]
pub struct Access {
    pub register: Register,
    pub port: Port,
}

impl Numbered for Access {
    ghost numbered = { decoded_access };

    ghost number_of = { access_selector };

    ghost bound = { 56 };

    fn from_number(number: u8) -> Option<Access> {
        let port = Port::from_number(number % 16)?;
        let register = Register::from_number(number / 16)?;
        Some(Access { register, port })
    }

    #[tactic(auto, using(codes::proofs::Halves::low_half, codes::proofs::Halves::high_half))]
    fn number(self) -> u8 {
        self.port.number() + 16 * self.register.number()
    }
}
