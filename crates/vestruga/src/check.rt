// `check`: an image accepted, or refused at the first no.
use super::counts::Blocks;
use super::files;
use super::troubles::Trouble;
use blocks::kinds::Kind;
use images::checking::{check, kind_of};
use program::program::Program;

pub(super) fn run(rt: &HostRuntime, path: &str) -> Result<(), Trouble> {
    let image = files::read(rt, path)?;
    match kind_of(&image) {
        Kind::Code => {
            let program = Program::load(rt.alloc(), &image)?;
            let count = program.bundles().len();
            println!(rt; "{path} is a program of {count} bundles, all of them lawful")?
        }
        Kind::Table => {
            let blocks = Blocks(check(Kind::Table, &image)?);
            println!(rt; "{path} is a table of {blocks}, all of them sound")?
        }
    }
    Ok(())
}
