// `seal`: a file's bytes sealed into an image.
use super::counts::Blocks;
use super::files;
use super::troubles::Trouble;
use blocks::kinds::Kind;
use blocks::layout::BLOCK;
use images::sealing::seal_all;

pub(super) fn run(rt: &HostRuntime, kind: Kind, from: &str, to: &str) -> Result<(), Trouble> {
    let bytes = files::read(rt, from)?;
    let image = seal_all(rt.alloc(), kind, &bytes)?;
    files::replace(rt, to, &image)?;
    let count = bytes.len();
    let blocks = Blocks(image.len() / BLOCK);
    println!(rt; "sealed {count} bytes of {from} into {to}: {blocks}")?;
    Ok(())
}
