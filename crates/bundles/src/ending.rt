// The end of a bundle: slot 3 and the tail.
ghost use Rattle.bundles.specs.Endings.{decoded_ending, encoded_ending};

use super::tails::Tail;
use branches::targets::Target;
use codes::bytes::Coded;
use operations::operation::Operation;

// A call or a jump stands in the place of slot 3's operation.
#[derive(Clone, Copy, PartialEq, Eq, Debug)]
pub enum Ending {
    Slot(Operation, Tail),
    Call(Target),
    Jump(Target),
}

// Bytes 6 to 15 of a bundle; bytes 6 and 7 are slot 3.
impl Coded<10> for Ending {
    ghost decoded = { decoded_ending };

    ghost encoded = { encoded_ending };

    // Every byte has a name, since a rest pattern that lends them is not proved.
    fn decode(bytes: &[u8; 10]) -> Option<Ending> {
        match *bytes {
            [0, 0, 3, 0, 0, a, b, c, d, 0] => Some(Ending::Call(Target::decode(&[a, b, c, d])?)),
            [0, 0, 4, 0, 0, a, b, c, d, 0] => Some(Ending::Jump(Target::decode(&[a, b, c, d])?)),
            [number, argument, a, b, c, d, e, f, g, h] => Some(Ending::Slot(
                Operation::decode(&[number, argument])?,
                Tail::decode(&[a, b, c, d, e, f, g, h])?,
            )),
        }
    }

    fn encode(self) -> [u8; 10] {
        match self {
            Ending::Slot(operation, tail) => {
                let [number, argument]: [u8; 2] = operation.encode();
                let [a, b, c, d, e, f, g, h]: [u8; 8] = tail.encode();
                [number, argument, a, b, c, d, e, f, g, h]
            }
            Ending::Call(target) => {
                let [a, b, c, d]: [u8; 4] = target.encode();
                [0, 0, 3, 0, 0, a, b, c, d, 0]
            }
            Ending::Jump(target) => {
                let [a, b, c, d]: [u8; 4] = target.encode();
                [0, 0, 4, 0, 0, a, b, c, d, 0]
            }
        }
    }
}
