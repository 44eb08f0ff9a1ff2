// A payload sealed into a block.
ghost use Rattle.std.specs.Prelude.{◌≡◌, length, Ok};
ghost use Rattle.questions.specs.Questions.{answered, held_after};
ghost use Rattle.blocks.specs.Asking.{sealing as asks, opened};
ghost use Rattle.blocks.specs.Kinds.{kind_byte};
ghost use Rattle.blocks.specs.Layout.{header, sealed};

use super::check::check_word;
use super::kinds::Kind;
use super::layout::{BLOCK, COVERED, EDITION, HEADER, PAYLOAD};
use super::refusals::SealRefusal;
use questions::ask;

// Seals a payload under a kind and a number; a refusal leaves the target as it was. The kind is a byte, since that it is
// known is the first question.
pub fn seal(kind: u8, number: u16, payload: &[u8], target: &mut [u8]) -> Result<(), SealRefusal>
    ensures answers { result ≡ answered (asks kind payload.now target.old) tt }
    ensures after { target.new ≡ held_after (asks kind payload.now target.old) (sealed kind number payload.now) target.old }
    ensures back { result ≡ Ok tt → opened kind number target.new ≡ Ok payload.now }
{
    ask(Kind::try_from(kind).is_ok(), SealRefusal::UnknownKind)?;
    ask(payload.len() == PAYLOAD, SealRefusal::PayloadLength)?;
    ask(target.len() == BLOCK, SealRefusal::TargetLength)?;
    lay(kind, number, payload, target);
    Ok(())
}

// The block of a payload that is as long as one asks for.
pub fn seal_block(kind: Kind, number: u16, payload: &[u8; PAYLOAD]) -> [u8; BLOCK]
    ensures { result ≡ sealed (kind_byte kind) number payload.now }
{
    let mut block = [0u8; BLOCK];
    lay(u8::from(kind), number, payload, &mut block);
    block
}

// Writes a whole block.
#[tactic(auto, unfolding(crate::specs::Layout::sealed))]
fn lay(kind: u8, number: u16, payload: &[u8], target: &mut [u8])
    requires payload { length payload.now ≡ 496 }
    requires target { length target.old ≡ 512 }
    ensures { target.new ≡ sealed kind number payload.now }
{
    let (covered, check) = target.split_at_mut(COVERED);
    let (head, body) = covered.split_at_mut(HEADER);
    head.copy_from_slice(&header(kind, number));
    body.copy_from_slice(payload);
    check.copy_from_slice(&check_word(covered).to_be_bytes());
}

fn header(kind: u8, number: u16) -> [u8; HEADER]
    ensures { result ≡ header kind number }
{
    let [high, low] = number.to_be_bytes();
    [kind, EDITION, high, low, 0, 0, 0, 0, 0, 0, 0, 0]
}
