// A side's move.
ghost use Rattle.std.specs.Prelude.{slice_index};
ghost use Rattle.moves.specs.Moves.{decoded_move, encoded_move};

use super::parts::Size;
use super::selectors::{Access, Reach};
use codes::bytes::Coded;
use codes::numbers::Numbered;

#[derive(Clone, Copy, PartialEq, Eq, Debug)]
pub enum Move {
    Idle,
    Offset(i8),
    Load(Size, Reach),
    Store(Size, Reach),
    Set(Access),
    Get(Access),
}

// The code byte, the selector byte and the value byte.
impl Coded<3> for Move {
    ghost decoded = { λ bytes. decoded_move (slice_index bytes 0) (slice_index bytes 1) (slice_index bytes 2) };

    ghost encoded = { encoded_move };

    fn decode(bytes: &[u8; 3]) -> Option<Move> {
        match *bytes {
            [0, 0, 0] => Some(Move::Idle),
            [1, 0, value] => Some(Move::Offset(value.cast_signed())),
            [code @ 2..=5, selector, 0] => Some(Move::Load(
                Size::from_number(code - 2)?,
                Reach::from_number(selector)?,
            )),
            [code @ 6..=9, selector, 0] => Some(Move::Store(
                Size::from_number(code - 6)?,
                Reach::from_number(selector)?,
            )),
            [10, selector, 0] => Some(Move::Set(Access::from_number(selector)?)),
            [11, selector, 0] => Some(Move::Get(Access::from_number(selector)?)),
            _ => None,
        }
    }

    fn encode(self) -> [u8; 3] {
        match self {
            Move::Idle => [0, 0, 0],
            Move::Offset(value) => [1, 0, value.cast_unsigned()],
            Move::Load(size, reach) => [2 + size.number(), reach.number(), 0],
            Move::Store(size, reach) => [6 + size.number(), reach.number(), 0],
            Move::Set(access) => [10, access.number(), 0],
            Move::Get(access) => [11, access.number(), 0],
        }
    }
}
