// The stacks that a branch asks.
ghost use Rattle.std.specs.Prelude.{◌≡◌, true};
ghost use Rattle.branches.specs.Named.{any_of};

use codes::numbers::Numbered;
use operations::places::StackNumber;

// Which of the four stacks are named, by their numbers: one at least.
#[derive(Clone, Copy, PartialEq, Eq, Debug)]
pub struct Stacks {
    named: [bool; 4],
    ghost some: { any_of named ≡ true },
}

impl Stacks {
    ghost use Rattle.std.specs.Prelude.{IfSome};
    ghost use Rattle.branches.specs.Stacks.{named_count, names, stacks_of};

    pub fn new(named: [bool; 4]) -> Option<Stacks>
        ensures value { result ≡ stacks_of named }
        ensures only { IfSome result (λ stacks. stacks.named ≡ named) }
    {
        if named.contains(&true) {
            Some(Stacks { named })
        } else {
            None
        }
    }

    pub fn names(self, stack: StackNumber) -> bool
        ensures { result ≡ names self stack }
    {
        self.named[usize::from(stack.number())]
    }

    // How many are named.
    pub(super) fn count(self) -> usize
        ensures { result ≡ named_count self }
    {
        self.named.iter().filter(|named| **named).count()
    }
}

// Four bits, stack 0 in the lowest.
impl Numbered for Stacks {
    ghost use Rattle.std.specs.Prelude.{◌<◌, Some};
    ghost use Rattle.branches.specs.Stacks.{decoded_stacks, encoded_stacks};

    ghost numbered = { decoded_stacks };

    ghost number_of = { encoded_stacks };

    ghost bound = { 16 };

    fn from_number(number: u8) -> Option<Stacks> {
        if number < 16 {
            Stacks::new([
                number % 2 == 1,
                number / 2 % 2 == 1,
                number / 4 % 2 == 1,
                number / 8 == 1,
            ])
        } else {
            None
        }
    }

    #[tactic(auto, using(crate::proofs::Bits::stacks_back))]
    fn number(self) -> u8
        ensures value { result ≡ encoded_stacks self }
        ensures back { decoded_stacks result ≡ Some self }
        ensures below { result < 16 }
        // one is named
        ensures some { 0 < result }
    {
        let [zero, one, two, three] = self.named;
        zero.number() + 2 * one.number() + 4 * two.number() + 8 * three.number()
    }
}
