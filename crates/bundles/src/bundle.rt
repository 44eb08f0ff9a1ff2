// Bundles.
ghost use Rattle.std.specs.Prelude.{◌≡◌, IfSome};
ghost use Rattle.bundles.specs.Bundles.{decoded, encoded, operation_at};

use super::ending::Ending;
use codes::bytes::Coded;
use codes::numbers::Numbered;
use operations::kinds::Special;
use operations::operation::Operation;
use operations::places::StackNumber;

// Slots 0 to 2; slot 3 is a part of the ending.
#[derive(Clone, Copy, PartialEq, Eq, Debug)]
pub struct Bundle {
    pub slots: [Operation; 3],
    pub ending: Ending,
}

impl Coded<16> for Bundle {
    ghost decoded = { decoded };

    ghost encoded = { encoded };

    fn decode(bytes: &[u8; 16]) -> Option<Bundle> {
        let [a, b, c, d, e, f, g, h, i, j, k, l, m, n, o, p] = *bytes;
        Some(Bundle {
            slots: [
                Operation::decode(&[a, b])?,
                Operation::decode(&[c, d])?,
                Operation::decode(&[e, f])?,
            ],
            ending: Ending::decode(&[g, h, i, j, k, l, m, n, o, p])?,
        })
    }

    fn encode(self) -> [u8; 16] {
        let [zero, one, two] = self.slots;
        let [a, b]: [u8; 2] = zero.encode();
        let [c, d]: [u8; 2] = one.encode();
        let [e, f]: [u8; 2] = two.encode();
        let [g, h, i, j, k, l, m, n, o, p]: [u8; 10] = self.ending.encode();
        [a, b, c, d, e, f, g, h, i, j, k, l, m, n, o, p]
    }
}

impl Bundle {
    // The bundle of sixteen bytes, if they are lawful.
    pub fn read(bytes: &[u8]) -> Option<Bundle>
        ensures value { result ≡ decoded bytes.now }
        ensures only { IfSome result (λ bundle. encoded bundle ≡ bytes.now) }
    {
        Bundle::decode(bytes.try_into().ok()?)
    }

    // The operation that a stack's slot runs: a call runs ip@ in slot 3, and a jump nothing.
    pub fn operation(self, stack: StackNumber) -> Operation
        ensures { result ≡ operation_at self stack }
    {
        match self.slots.get(usize::from(stack.number())) {
            Some(operation) => *operation,
            None => match self.ending {
                Ending::Slot(operation, _) => operation,
                Ending::Call(_) => Operation::Special(Special::FetchIp),
                Ending::Jump(_) => Operation::Nop,
            },
        }
    }
}
