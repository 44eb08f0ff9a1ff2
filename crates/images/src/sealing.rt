// Bytes of any length sealed into an image.
ghost use Rattle.std.specs.Prelude.{◌≡◌, ◌*◌, ◌≤◌, length, IfOk, Ok};
ghost use Rattle.questions.specs.Questions.{first_no};
ghost use Rattle.images.specs.Answers.{Gives};
ghost use Rattle.images.specs.Images.{blocks_for, filled_to, read_back, sealed_all, sizes};

use super::checking::ask_size;
use super::refusals::ImageError;
use blocks::kinds::Kind;
use blocks::layout::PAYLOAD;
use blocks::sealing::seal_block;
use std::alloc::Global;

// Cuts bytes into payloads, the last one filled up with zeros, and seals them in order, numbers from 0.
pub fn seal_all(heap: Global, kind: Kind, bytes: &[u8]) -> Result<Vec<u8>, ImageError>
    ensures answers { Gives result (first_no (sizes kind (blocks_for bytes.now))) (sealed_all kind bytes.now) }
    ensures back { IfOk result (λ image. read_back kind image.items ≡ Ok (filled_to (496 * blocks_for bytes.now) bytes.now)) }
{
    let blocks = bytes.len().div_ceil(PAYLOAD);
    ask_size(kind, blocks)?;
    let mut image = Vec::new(heap);
    for (place, part) in bytes.chunks(PAYLOAD).enumerate() {
        let payload = fill_up(part);
        image.extend_from_slice(&seal_block(kind, place as u16, &payload))?;
    }
    Ok(image)
}

fn fill_up(part: &[u8]) -> [u8; PAYLOAD]
    requires { length part.now ≤ 496 }
    ensures { result ≡ filled_to 496 part.now }
{
    let mut payload = [0u8; PAYLOAD];
    let (front, _) = payload.split_at_mut(part.len());
    front.copy_from_slice(part);
    payload
}
