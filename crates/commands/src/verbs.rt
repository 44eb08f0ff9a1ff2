// The words that commands begin with.
ghost use Rattle.std.specs.Prelude.{◌≡◌, Some};
ghost use Rattle.std.specs.Result.{result_ok};
ghost use Rattle.commands.specs.Verbs.{verb_form, verb_named};

use std::fmt;
use std::str::FromStr;

#[derive(Clone, Copy, PartialEq, Eq, Debug)]
pub enum Verb {
    Seal,
    Check,
    Show,
    List,
    Read,
    Help,
}

// A word with which no command begins.
#[derive(Clone, Copy, PartialEq, Eq, Debug)]
pub struct UnknownVerb;

impl FromStr for Verb {
    type Err = UnknownVerb;

    ghost from_str_gives = { λ word verb. result_ok verb ≡ verb_named word };

    fn from_str(word: &str) -> Result<Verb, UnknownVerb> {
        match word {
            "seal" => Ok(Verb::Seal),
            "check" => Ok(Verb::Check),
            "show" => Ok(Verb::Show),
            "list" => Ok(Verb::List),
            "read" => Ok(Verb::Read),
            "help" => Ok(Verb::Help),
            _ => Err(UnknownVerb),
        }
    }
}

// How the command is written.
impl fmt::Display for Verb {
    ghost output = { λ verb. Some (verb_form verb) };

    fn fmt<W: fmt::Write>(&self, f: &mut fmt::Formatter<W>) -> fmt::Result {
        f.write_str(match self {
            Verb::Seal => "seal code|table IN OUT",
            Verb::Check => "check IMAGE",
            Verb::Show => "show IMAGE [--payload]",
            Verb::List => "list IMAGE",
            Verb::Read => "read IMAGE ADDRESS [COUNT]",
            Verb::Help => "help",
        })
    }
}
