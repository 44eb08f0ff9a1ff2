// How a block lies: a header, a payload, and the check word of both.
ghost use Rattle.std.specs.Prelude.{◌≡◌};
ghost use Rattle.blocks.specs.Layout.{payload_of};

// A whole block.
pub const BLOCK: usize = 512;

// The kind, the edition, the number and eight zeros.
pub const HEADER: usize = 12;

// What a block carries.
pub const PAYLOAD: usize = 496;

// What the check word is made of.
pub const COVERED: usize = HEADER + PAYLOAD;

pub const EDITION: u8 = 1;

// What a whole block carries.
pub fn payload(block: &[u8; BLOCK]) -> &[u8]
    ensures { result.now ≡ payload_of block.now }
{
    &block[HEADER..COVERED]
}
