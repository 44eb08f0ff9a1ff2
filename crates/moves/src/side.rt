// The two sides, and the stacks that each serves.
ghost use Rattle.std.specs.Prelude.{◌≡◌};
ghost use Rattle.moves.specs.Sides.{stack_on};

use super::moving::Move;
use super::parts::Half;
use operations::places::StackNumber;

#[derive(Clone, Copy, PartialEq, Eq, Debug)]
pub enum Side {
    Even,
    Odd,
}

impl Side {
    pub fn stack(self, half: Half) -> StackNumber
        ensures { result ≡ stack_on self half }
    {
        match (self, half) {
            (Side::Even, Half::Lower) => StackNumber::Zero,
            (Side::Even, Half::Higher) => StackNumber::Two,
            (Side::Odd, Half::Lower) => StackNumber::One,
            (Side::Odd, Half::Higher) => StackNumber::Three,
        }
    }
}

// A move beside the side that makes it, as its text names the stack.
#[derive(Clone, Copy, PartialEq, Eq, Debug)]
pub struct SideMove {
    pub side: Side,
    pub made: Move,
}
