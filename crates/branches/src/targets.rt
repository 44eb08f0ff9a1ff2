// Where a call or a jump goes.
ghost use Rattle.std.specs.Prelude.{◌≡◌, true};
ghost use Rattle.branches.specs.Whole.{whole};

use codes::bytes::Coded;
use std::error::Error;

// The address of a bundle: a multiple of 8.
#[derive(Clone, Copy, PartialEq, Eq, Debug)]
pub struct Target {
    address: u32,
    ghost bundle: { whole address ≡ true },
}

// An address where no bundle stands.
#[derive(Clone, Copy, PartialEq, Eq, Debug)]
pub struct NoBundle {
    pub address: u32,
}

impl TryFrom<u32> for Target {
    ghost use Rattle.branches.specs.Targets.{IsTargetAt};

    type Error = NoBundle;

    ghost try_from_gives = { IsTargetAt };

    fn try_from(address: u32) -> Result<Target, NoBundle> {
        if address.is_multiple_of(8) {
            Ok(Target { address })
        } else {
            Err(NoBundle { address })
        }
    }
}

impl From<Target> for u32 {
    ghost from_gives = { λ target address. address ≡ target.address };

    fn from(target: Target) -> u32 {
        target.address
    }
}

// Four bytes, the high one first.
impl Coded<4> for Target {
    ghost use Rattle.std.specs.Prelude.{slice_index};
    ghost use Rattle.branches.specs.Targets.{decoded_target, encoded_target};

    ghost decoded = { λ bytes. decoded_target (slice_index bytes 0) (slice_index bytes 1) (slice_index bytes 2) (slice_index bytes 3) };

    ghost encoded = { encoded_target };

    #[tactic(auto, using(crate::proofs::Made::target_of_address))]
    fn decode(bytes: &[u8; 4]) -> Option<Target> {
        Target::try_from(u32::from_be_bytes(*bytes)).ok()
    }

    fn encode(self) -> [u8; 4] {
        self.address.to_be_bytes()
    }
}

impl Error for NoBundle {}
