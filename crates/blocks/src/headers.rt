// What a block says of itself, sound or not: for people to read.
ghost use Rattle.std.specs.Prelude.{◌≡◌};
ghost use Rattle.blocks.specs.Headers.{headed};

use super::layout::BLOCK;

#[derive(Clone, Copy, PartialEq, Eq, Debug)]
pub struct Header {
    pub kind: u8,
    pub edition: u8,
    pub number: u16,
    pub check: u32,
}

impl Header {
    // The header and the check word that stand in a whole block.
    pub fn read(bytes: &[u8]) -> Option<Header>
        ensures { result ≡ headed bytes.now }
    {
        let block: &[u8; BLOCK] = bytes.try_into().ok()?;
        let [kind, edition, high, low, .., first, second, third, fourth] = block;
        Some(Header {
            kind: *kind,
            edition: *edition,
            number: u16::from_be_bytes([*high, *low]),
            check: u32::from_be_bytes([*first, *second, *third, *fourth]),
        })
    }
}
