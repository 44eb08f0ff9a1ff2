// The words for what a block carries.
ghost use Rattle.std.specs.Prelude.{◌≡◌};
ghost use Rattle.commands.specs.Verbs.{kind_word};

use blocks::kinds::Kind;

// The kind that a word names. (`FromStr` would have to stand with `Kind`, which knows nothing of commands.)
pub fn kind_named(word: &str) -> Option<Kind>
    ensures { result ≡ kind_word word.now }
{
    match word {
        "code" => Some(Kind::Code),
        "table" => Some(Kind::Table),
        _ => None,
    }
}
