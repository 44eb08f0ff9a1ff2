// The command-line program: one command from its arguments, or a script of them from standard input.
#![tactic(auto)]

mod check;
mod command;
mod counts;
mod files;
mod help;
mod list;
mod read;
mod seal;
mod show;
mod troubles;

use self::command::{Command, parse};
use self::troubles::Trouble;
use std::alloc::{AllocError, Global};
use std::env;
use std::process::ExitCode;

fn main(rt: HostRuntime) -> anyhow::Result<ExitCode> {
    let arguments: Vec<String> = env::args(&rt)?.skip(1).collect(rt.alloc())?;
    if arguments.is_empty() {
        script(&rt)?;
        return Ok(ExitCode::SUCCESS);
    }
    let words: Vec<&str> = arguments.iter().map(String::as_str).collect(rt.alloc())?;
    match run(&rt, &words) {
        Ok(()) => Ok(ExitCode::SUCCESS),
        Err(trouble) => {
            eprintln!(rt; "vestruga: {trouble}")?;
            Ok(ExitCode::FAILURE)
        }
    }
}

// Carries out a script: what one line is refused does not keep the next from its turn.
fn script(rt: &HostRuntime) -> anyhow::Result<()> {
    for line in rt.lines(rt.alloc()) {
        let line = line?;
        let words = split(rt.alloc(), line.as_str())?;
        if words.is_empty() {
            continue;
        }
        println!(rt; "> {line}")?;
        if let Err(trouble) = run(rt, &words) {
            println!(rt; "{trouble}")?;
        }
    }
    Ok(())
}

// The words of a line, up to its comment.
fn split(heap: Global, line: &str) -> Result<Vec<&str>, AllocError> {
    line.split_whitespace()
        .take_while(|word| !word.starts_with('#'))
        .collect(heap)
}

fn run(rt: &HostRuntime, words: &[&str]) -> Result<(), Trouble> {
    match parse(words)? {
        Command::Seal { kind, from, to } => seal::run(rt, kind, from, to),
        Command::Check { image } => check::run(rt, image),
        Command::Show { image, payload } => show::run(rt, image, payload),
        Command::List { image } => list::run(rt, image),
        Command::Read {
            image,
            address,
            count,
        } => read::run(rt, image, address, count),
        Command::Help => help::run(rt),
    }
}
