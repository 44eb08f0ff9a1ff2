// A block opened: its header asked about, the rest handed on as payload.
ghost use Rattle.std.specs.Prelude.{◌≡◌, IfOk};
ghost use Rattle.blocks.specs.Asking.{opened, lent};
ghost use Rattle.blocks.specs.Kinds.{kind_byte};
ghost use Rattle.blocks.specs.Layout.{sealed, all_zero};

use super::check::check_word;
use super::headers::Header;
use super::kinds::Kind;
use super::layout::{COVERED, EDITION, HEADER};
use super::refusals::BlockRefusal;
use questions::ask;

// The payload of a sound block of a kind at a place.
#[tactic(auto, unfolding(crate::specs::Asking::opening))]
pub fn open(bytes: &[u8], kind: Kind, place: u16) -> Result<&[u8], BlockRefusal>
    ensures answers { lent result ≡ opened (kind_byte kind) place bytes.now }
    ensures exact { IfOk result (λ payload. bytes.now ≡ sealed (kind_byte kind) place payload.now) }
{
    let header = Header::read(bytes).ok_or(BlockRefusal::NotWhole)?;
    ask(header.kind == u8::from(kind), BlockRefusal::WrongKind)?;
    ask(header.edition == EDITION, BlockRefusal::WrongEdition)?;
    ask(header.number == place, BlockRefusal::WrongPlace)?;
    ask(all_zero(&bytes[4..HEADER]), BlockRefusal::NotZero)?;
    let word = check_word(&bytes[0..COVERED]);
    ask(header.check == word, BlockRefusal::WrongCheck)?;
    Ok(&bytes[HEADER..COVERED])
}

fn all_zero(bytes: &[u8]) -> bool
    ensures { result ≡ all_zero bytes.now }
{
    bytes.iter().all(|byte| *byte == 0)
}
