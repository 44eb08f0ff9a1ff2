// A code image made a program, or refused at the first no.
ghost use Rattle.std.specs.Prelude.{◌/◌, ◌≤◌, length, IfOk, vec_len};
ghost use Rattle.program.specs.Loading.{unlawful, bundles_of};
ghost use Rattle.program.specs.Loads.{Loads, Decodes};

use super::program::Program;
use super::refusals::{LoadError, LoadRefusal, load_error};
use blocks::kinds::Kind;
use bundles::bundle::Bundle;
use codes::bytes::Coded;
use images::reading::payloads;
use std::alloc::Global;

const BUNDLE: usize = 16;

impl Program {
    // The bundles of the payloads, in order; a refused image makes no program.
    pub fn load(heap: Global, image: &[u8]) -> Result<Program, LoadError>
        ensures { Loads result image.now }
    {
        let bytes = payloads(heap, Kind::Code, image).map_err(load_error)?;
        let bundles = decode_all(heap, &bytes)?;
        Ok(Program { bundles })
    }
}

fn decode_all(heap: Global, bytes: &[u8]) -> Result<Vec<Bundle>, LoadError>
    requires { length bytes.now ≤ 1015808 }
    ensures answers { Decodes result (unlawful 0 (length bytes.now / 16) bytes.now) (bundles_of (length bytes.now / 16) bytes.now) }
    ensures bound { IfOk result (λ bundles. vec_len bundles ≤ 63488) }
{
    let (chunks, _) = bytes.as_chunks::<BUNDLE>();
    let mut bundles = Vec::with_capacity(heap, chunks.len())?;
    for (place, chunk) in chunks.iter().enumerate() {
        let unlawful = LoadRefusal::Unlawful {
            bundle: place as u32,
        };
        bundles.push_reserved(Bundle::decode(chunk).ok_or(unlawful)?);
    }
    Ok(bundles)
}
