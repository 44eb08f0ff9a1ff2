// Condition bytes.
ghost use Rattle.branches.specs.Checks.{decoded_check, encoded_check};

use codes::numbers::Numbered;
use words::condition::Condition;

// A condition, and whether it pops the word that it looks at.
#[derive(Clone, Copy, PartialEq, Eq, Debug)]
pub struct Check {
    pub condition: Condition,
    pub pops: bool,
}

// A condition byte.
impl Numbered for Check {
    ghost numbered = { decoded_check };

    ghost number_of = { encoded_check };

    ghost bound = { 32 };

    fn from_number(number: u8) -> Option<Check> {
        Some(Check {
            condition: Condition::from_number(number % 16)?,
            pops: bool::from_number(number / 16)?,
        })
    }

    #[tactic(auto, using(codes::proofs::Halves::low_half, codes::proofs::Halves::high_half))]
    fn number(self) -> u8 {
        self.condition.number() + 16 * self.pops.number()
    }
}
