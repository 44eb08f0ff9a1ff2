// How far a branch goes.
ghost use Rattle.std.specs.Prelude.{◌≡◌, true};
ghost use Rattle.branches.specs.Near.{near};

use codes::bytes::Coded;
use std::error::Error;

// A signed number of bundles, counted from the next one: -1,024 to 1,023.
#[derive(Clone, Copy, PartialEq, Eq, Debug)]
pub struct Offset {
    bundles: i16,
    ghost close: { near bundles ≡ true },
}

// More bundles than a branch may go.
#[derive(Clone, Copy, PartialEq, Eq, Debug)]
pub struct TooFar {
    pub bundles: i16,
}

impl TryFrom<i16> for Offset {
    ghost use Rattle.branches.specs.Offsets.{IsOffsetOf};

    type Error = TooFar;

    ghost try_from_gives = { IsOffsetOf };

    fn try_from(bundles: i16) -> Result<Offset, TooFar> {
        if (-1024..1024).contains(&bundles) {
            Ok(Offset { bundles })
        } else {
            Err(TooFar { bundles })
        }
    }
}

impl From<Offset> for i16 {
    ghost from_gives = { λ offset bundles. bundles ≡ offset.bundles };

    fn from(offset: Offset) -> i16 {
        offset.bundles
    }
}

// Two bytes, the high one first.
impl Coded<2> for Offset {
    ghost use Rattle.std.specs.Prelude.{slice_index};
    ghost use Rattle.branches.specs.Offsets.{decoded_offset, encoded_offset};

    ghost decoded = { λ bytes. decoded_offset (slice_index bytes 0) (slice_index bytes 1) };

    ghost encoded = { encoded_offset };

    #[tactic(auto, using(crate::proofs::Made::offset_of_bundles))]
    fn decode(bytes: &[u8; 2]) -> Option<Offset> {
        Offset::try_from(i16::from_be_bytes(*bytes)).ok()
    }

    fn encode(self) -> [u8; 2] {
        self.bundles.to_be_bytes()
    }
}

impl Error for TooFar {}
