// `list`: the bundles of a program in words.
use super::files;
use super::troubles::Trouble;
use program::program::Program;

pub(super) fn run(rt: &HostRuntime, path: &str) -> Result<(), Trouble> {
    let image = files::read(rt, path)?;
    let program = Program::load(rt.alloc(), &image)?;
    let end = program.end();
    for (address, bundle) in (0..end).step_by(8).zip(program.bundles()) {
        println!(rt; "{address:6}  {bundle}")?;
    }
    println!(rt; "{end:6}  the end")?;
    Ok(())
}
