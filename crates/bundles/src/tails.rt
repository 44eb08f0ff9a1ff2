// What stands beside four operations: moves, a setup or a branch.
ghost use Rattle.bundles.specs.Tails.{decoded_tail, encoded_tail};

use branches::branch::Branch;
use branches::checks::Check;
use codes::bytes::Coded;
use codes::numbers::Numbered;
use moves::moving::Move;

// A check for each stack, by the stacks' numbers.
#[derive(Clone, Copy, PartialEq, Eq, Debug)]
pub struct Setup {
    pub checks: [Check; 4],
}

#[derive(Clone, Copy, PartialEq, Eq, Debug)]
pub enum Tail {
    // the even side's move, then the odd side's
    Moves(Move, Move),
    Setup(Setup),
    Branch(Branch),
}

// Bytes 8 to 15 of a bundle; byte 8 is the format.
impl Coded<8> for Tail {
    ghost decoded = { decoded_tail };

    ghost encoded = { encoded_tail };

    fn decode(bytes: &[u8; 8]) -> Option<Tail> {
        match *bytes {
            [0, a, b, c, d, e, f, 0] => Some(Tail::Moves(
                Move::decode(&[a, b, c])?,
                Move::decode(&[d, e, f])?,
            )),
            [1, zero, one, two, three, 0, 0, 0] => Some(Tail::Setup(Setup {
                checks: [
                    Check::from_number(zero)?,
                    Check::from_number(one)?,
                    Check::from_number(two)?,
                    Check::from_number(three)?,
                ],
            })),
            [2, a, b, c, d, 0, 0, 0] => Some(Tail::Branch(Branch::decode(&[a, b, c, d])?)),
            _ => None,
        }
    }

    fn encode(self) -> [u8; 8] {
        match self {
            Tail::Moves(even, odd) => {
                let [a, b, c]: [u8; 3] = even.encode();
                let [d, e, f]: [u8; 3] = odd.encode();
                [0, a, b, c, d, e, f, 0]
            }
            Tail::Setup(setup) => {
                let [zero, one, two, three] = setup.checks;
                [
                    1,
                    zero.number(),
                    one.number(),
                    two.number(),
                    three.number(),
                    0,
                    0,
                    0,
                ]
            }
            Tail::Branch(branch) => {
                let [a, b, c, d]: [u8; 4] = branch.encode();
                [2, a, b, c, d, 0, 0, 0]
            }
        }
    }
}
