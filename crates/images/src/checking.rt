// An image accepted, or refused at the first no.
ghost use Rattle.std.specs.Prelude.{◌≡◌};
ghost use Rattle.questions.specs.Questions.{answered, first_no};
ghost use Rattle.blocks.specs.Asking.{opening};
ghost use Rattle.blocks.specs.Kinds.{kind_byte};
ghost use Rattle.images.specs.Images.{kind_of, in_block, blocks_in, sizes, measured, checking as asks};

use super::refusals::ImageRefusal;
use blocks::kinds::Kind;
use blocks::layout::BLOCK;
use blocks::opening::open;
use questions::{ask, ask_all};

// The kind that an image is taken for, by its first byte.
pub fn kind_of(image: &[u8]) -> Kind
    ensures { result ≡ kind_of image.now }
{
    if image.first() == Some(&u8::from(Kind::Table)) {
        Kind::Table
    } else {
        Kind::Code
    }
}

// How many blocks an image has that is as long as one may be.
pub fn count_blocks(kind: Kind, image: &[u8]) -> Result<usize, ImageRefusal>
    ensures { result ≡ answered (measured kind image.now) (blocks_in image.now) }
{
    ask(image.len() % BLOCK == 0, ImageRefusal::Length)?;
    let blocks = image.len() / BLOCK;
    ask_size(kind, blocks)?;
    Ok(blocks)
}

// May an image have as many blocks?
pub(crate) fn ask_size(kind: Kind, blocks: usize) -> Result<(), ImageRefusal>
    ensures { result ≡ answered (first_no (sizes kind blocks)) tt }
{
    ask_all(&[
        (1 <= blocks, ImageRefusal::Length),
        (blocks <= kind.most_blocks(), ImageRefusal::Length),
    ])
}

// How many blocks an image has that is accepted.
pub fn check(kind: Kind, image: &[u8]) -> Result<usize, ImageRefusal>
    ensures { result ≡ answered (asks kind image.now) (blocks_in image.now) }
{
    let count = count_blocks(kind, image)?;
    let (blocks, _) = image.as_chunks::<BLOCK>();
    for (place, block) in blocks.iter().enumerate() {
        check_block(kind, place as u16, block)?;
    }
    Ok(count)
}

fn check_block(kind: Kind, place: u16, block: &[u8]) -> Result<(), ImageRefusal>
    ensures { result ≡ answered (in_block place (opening (kind_byte kind) place block.now)) tt }
{
    open(block, kind, place).map_err(|refusal| ImageRefusal::Block { place, refusal })?;
    Ok(())
}
