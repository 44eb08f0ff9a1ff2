// What the words of a command ask for.
use blocks::kinds::Kind;
use commands::kinds::kind_named;
use commands::verbs::{UnknownVerb, Verb};
use std::num::ParseIntError;
use thiserror::Error;

pub(super) enum Command<'a> {
    Seal {
        kind: Kind,
        from: &'a str,
        to: &'a str,
    },
    Check {
        image: &'a str,
    },
    Show {
        image: &'a str,
        payload: bool,
    },
    List {
        image: &'a str,
    },
    Read {
        image: &'a str,
        address: usize,
        count: usize,
    },
    Help,
}

#[derive(Debug, Drop, Error)]
pub(super) enum Misuse {
    #[error("there is no command; `vestruga help` lists them")]
    Empty,
    #[error("there is no such command; `vestruga help` lists them")]
    UnknownVerb(#[from] UnknownVerb),
    #[error("a block's kind is written `code` or `table`")]
    UnknownKind,
    #[error("an address and a count are decimal numbers")]
    NotANumber(#[from] ParseIntError),
    #[error("the command is written so: vestruga {0}")]
    Words(Verb),
}

pub(super) fn parse<'a>(words: &[&'a str]) -> Result<Command<'a>, Misuse> {
    let [word, rest @ ..] = words else {
        return Err(Misuse::Empty);
    };
    let verb: Verb = word.parse()?;
    match (verb, rest) {
        (Verb::Seal, [kind, from, to]) => Ok(Command::Seal {
            kind: kind_named(kind).ok_or(Misuse::UnknownKind)?,
            from,
            to,
        }),
        (Verb::Check, [image]) => Ok(Command::Check { image }),
        (Verb::Show, [image]) => Ok(Command::Show {
            image,
            payload: false,
        }),
        (Verb::Show, [image, "--payload"]) => Ok(Command::Show {
            image,
            payload: true,
        }),
        (Verb::List, [image]) => Ok(Command::List { image }),
        (Verb::Read, [image, address]) => Ok(Command::Read {
            image,
            address: address.parse()?,
            count: 1,
        }),
        (Verb::Read, [image, address, count]) => Ok(Command::Read {
            image,
            address: address.parse()?,
            count: count.parse()?,
        }),
        (Verb::Help, []) => Ok(Command::Help),
        (verb, _) => Err(Misuse::Words(verb)),
    }
}
