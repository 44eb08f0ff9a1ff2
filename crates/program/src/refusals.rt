// Why a code image makes no program.
ghost use Rattle.std.specs.Prelude.{◌≡◌, Some};
ghost use Rattle.program.specs.declared.refusals.LoadRefusal.TheVariants.{Image};
ghost use Rattle.program.specs.Refusals.{load_error, load_number, load_question, load_text};

use images::refusals::{ImageError, ImageRefusal};
use questions::failures::Failure;
use questions::refusals::Refusal;
use std::error::Error;
use std::fmt;

// The image's own refusal, or the first bundle that is not lawful.
#[derive(Clone, Copy, PartialEq, Eq, Debug)]
pub enum LoadRefusal {
    Image(ImageRefusal),
    Unlawful { bundle: u32 },
}

impl Refusal for LoadRefusal {
    ghost number = { load_number };

    ghost question = { load_question };

    fn number(self) -> u16 {
        match self {
            LoadRefusal::Image(refusal) => refusal.number(),
            LoadRefusal::Unlawful { .. } => 10,
        }
    }

    fn question(self) -> &'static str {
        match self {
            LoadRefusal::Image(refusal) => refusal.question(),
            LoadRefusal::Unlawful { .. } => "Is every bundle lawful?",
        }
    }
}

impl fmt::Display for LoadRefusal {
    ghost output = { λ refusal. Some (load_text refusal) };

    fn fmt<W: fmt::Write>(&self, f: &mut fmt::Formatter<W>) -> fmt::Result {
        match self {
            LoadRefusal::Image(refusal) => write!(f, "{refusal}"),
            LoadRefusal::Unlawful { bundle } => {
                self.show(f)?;
                write!(f, " (bundle {bundle})")
            }
        }
    }
}

impl Error for LoadRefusal {}

impl From<ImageRefusal> for LoadRefusal {
    ghost from_gives = { λ refusal load. load ≡ Image refusal };

    fn from(refusal: ImageRefusal) -> LoadRefusal {
        LoadRefusal::Image(refusal)
    }
}

// What can go wrong where a program is loaded.
pub type LoadError = Failure<LoadRefusal>;

// What is wrong with an image is wrong with the program. (A `From` between two failures of `questions` may not stand here.)
pub fn load_error(error: ImageError) -> LoadError
    ensures { result ≡ load_error error }
{
    error.map_into()
}
