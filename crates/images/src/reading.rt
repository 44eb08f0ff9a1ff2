// The bytes that an image carries.
ghost use Rattle.std.specs.Prelude.{◌≡◌, IfOk};
ghost use Rattle.images.specs.Answers.{Gives};
ghost use Rattle.images.specs.Images.{blocks_in, checking as asks, payloads_of, sealed_all};

use super::checking::check;
use super::refusals::ImageError;
use blocks::kinds::Kind;
use blocks::layout::{BLOCK, PAYLOAD, payload};
use std::alloc::Global;

// The payloads of an accepted image, one after the other: whatever is accepted is the image of what it carries.
pub fn payloads(heap: Global, kind: Kind, image: &[u8]) -> Result<Vec<u8>, ImageError>
    ensures answers { Gives result (asks kind image.now) (payloads_of (blocks_in image.now) image.now) }
    ensures exact { IfOk result (λ bytes. image.now ≡ sealed_all kind bytes.items) }
{
    let count = check(kind, image)?;
    let mut bytes = Vec::with_capacity(heap, PAYLOAD * count)?;
    let (blocks, _) = image.as_chunks::<BLOCK>();
    for block in blocks {
        bytes.extend_from_slice(payload(block))?;
    }
    Ok(bytes)
}
