// `help`: what the program can do.
use super::troubles::Trouble;

const HELP: &str = "\
vestruga COMMAND, or a script of commands on standard input, one a line, # starts a comment

  seal code|table IN OUT     seals the bytes of IN into blocks, and writes the image to OUT
  check IMAGE                says whether an image is accepted, or the first question that gets a no
  show IMAGE [--payload]     prints every block: number, kind, edition, check word, sound or refused
  list IMAGE                 prints a program, each bundle in words after its address
  read IMAGE ADDRESS [COUNT] prints bytes of a table by address, each with its mark
  help                       prints this page

A refused or failed command leaves its output file as it was.";

pub(super) fn run(rt: &HostRuntime) -> Result<(), Trouble> {
    println!(rt; "{HELP}")?;
    Ok(())
}
