// The questions that a slot asks, by the numbers of their faults.
ghost use Rattle.std.specs.Prelude.{Some};
ghost use Rattle.drafts.specs.Faults.{fault_number, fault_question, fault_text};

use super::draft::SlotFault;
use questions::refusals::Refusal;
use std::error::Error;
use std::fmt;

impl Refusal for SlotFault {
    ghost number = { fault_number };

    ghost question = { fault_question };

    fn number(self) -> u16 {
        self as u16
    }

    fn question(self) -> &'static str {
        match self {
            SlotFault::Lacking => "Are there words enough?",
            SlotFault::Crowded => "Do 64 words hold the stack after the part?",
        }
    }
}

impl fmt::Display for SlotFault {
    ghost output = { λ fault. Some (fault_text fault) };

    fn fmt<W: fmt::Write>(&self, f: &mut fmt::Formatter<W>) -> fmt::Result {
        self.show(f)
    }
}

impl Error for SlotFault {}
