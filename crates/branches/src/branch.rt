// Branches.
ghost use Rattle.std.specs.Prelude.{◌≡◌, ◌<◌, Some, slice_index};
ghost use Rattle.branches.specs.Branches.{decoded_branch, decoded_choice, encoded_branch, encoded_choice, needed_number, neededs};
ghost use Rattle.std.specs.List.{slice_get};

use super::checks::Check;
use super::offset::Offset;
use super::stacks::Stacks;
use codes::bytes::Coded;
use codes::numbers::Numbered;

// Whether one stack whose condition holds is enough, or all that are named must hold.
#[derive(Clone, Copy, PartialEq, Eq, Debug)]
pub enum Needed {
    One,
    All,
}

impl Numbered for Needed {
    ghost numbered = { slice_get neededs };

    ghost number_of = { needed_number };

    ghost bound = { 2 };

    fn from_number(number: u8) -> Option<Needed> {
        match number {
            0 => Some(Needed::One),
            1 => Some(Needed::All),
            _ => None,
        }
    }

    fn number(self) -> u8 {
        self as u8
    }
}

// What is asked, of which stacks, and how many must say yes.
#[derive(Clone, Copy, PartialEq, Eq, Debug)]
pub struct Choice {
    pub check: Check,
    pub stacks: Stacks,
    pub needed: Needed,
}

// A condition byte, and the byte that names stacks.
impl Coded<2> for Choice {
    ghost decoded = { λ bytes. decoded_choice (slice_index bytes 0) (slice_index bytes 1) };

    ghost encoded = { encoded_choice };

    fn decode(bytes: &[u8; 2]) -> Option<Choice> {
        let [condition, named] = *bytes;
        Some(Choice {
            check: Check::from_number(condition)?,
            stacks: Stacks::from_number(named % 16)?,
            needed: Needed::from_number(named / 16)?,
        })
    }

    #[tactic(auto, using(codes::proofs::Halves::low_half, codes::proofs::Halves::high_half))]
    fn encode(self) -> [u8; 2]
        ensures value { result ≡ encoded_choice self }
        ensures back { decoded_choice (slice_index result 0) (slice_index result 1) ≡ Some self }
        // it names a stack
        ensures some { 0 < slice_index result 1 }
    {
        [
            self.check.number(),
            self.stacks.number() + 16 * self.needed.number(),
        ]
    }
}

// A branch is taken by what stacks say, or always where there is no choice.
#[derive(Clone, Copy, PartialEq, Eq, Debug)]
pub struct Branch {
    pub choice: Option<Choice>,
    pub offset: Offset,
}

// The bytes of the choice, which are 0 where there is none, and those of the offset.
impl Coded<4> for Branch {
    ghost decoded = { λ bytes. decoded_branch (slice_index bytes 0) (slice_index bytes 1) (slice_index bytes 2) (slice_index bytes 3) };

    ghost encoded = { encoded_branch };

    fn decode(bytes: &[u8; 4]) -> Option<Branch> {
        let [condition, named, high, low] = *bytes;
        let choice = match [condition, named] {
            [0, 0] => None,
            asked => Some(Choice::decode(&asked)?),
        };
        Some(Branch {
            choice,
            offset: Offset::decode(&[high, low])?,
        })
    }

    fn encode(self) -> [u8; 4] {
        let [condition, named] = self.choice.map_or([0, 0], Choice::encode);
        let [high, low]: [u8; 2] = self.offset.encode();
        [condition, named, high, low]
    }
}
