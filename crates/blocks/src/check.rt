// The check word of a block.
ghost use Rattle.std.specs.Prelude.{◌≡◌};
ghost use Rattle.blocks.specs.Check.{check_word, mixed};

// From 0, for each byte: rotated left by 5, then xored with the byte.
pub fn check_word(bytes: &[u8]) -> u32
    ensures { result ≡ check_word bytes.now }
{
    bytes.iter().fold(0, |word, byte| mix(word, *byte))
}

#[tactic(auto, using(crate::proofs::Rotation::rotated_is))]
fn mix(word: u32, byte: u8) -> u32
    ensures { result ≡ mixed word byte }
{
    word.rotate_left(5) ^ u32::from(byte)
}
