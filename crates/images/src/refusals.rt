// Why an image is not accepted.
ghost use Rattle.std.specs.Prelude.{Some};
ghost use Rattle.images.specs.Refusals.{image_number, image_question, image_text};

use blocks::refusals::BlockRefusal;
use questions::failures::Failure;
use questions::refusals::Refusal;
use std::error::Error;
use std::fmt;

// Its length, or the first block that does not open.
#[derive(Clone, Copy, PartialEq, Eq, Debug)]
pub enum ImageRefusal {
    Length,
    Block { place: u16, refusal: BlockRefusal },
}

impl Refusal for ImageRefusal {
    ghost number = { image_number };

    ghost question = { image_question };

    fn number(self) -> u16 {
        match self {
            ImageRefusal::Length => 4,
            ImageRefusal::Block { refusal, .. } => refusal.number(),
        }
    }

    fn question(self) -> &'static str {
        match self {
            ImageRefusal::Length => "Is the image 1 to 2048 whole blocks (1 to 8192 of a table)?",
            ImageRefusal::Block { refusal, .. } => refusal.question(),
        }
    }
}

impl fmt::Display for ImageRefusal {
    ghost output = { λ refusal. Some (image_text refusal) };

    fn fmt<W: fmt::Write>(&self, f: &mut fmt::Formatter<W>) -> fmt::Result {
        match self {
            ImageRefusal::Length => self.show(f),
            ImageRefusal::Block { place, refusal } => write!(f, "{refusal} (block {place})"),
        }
    }
}

impl Error for ImageRefusal {}

// What can go wrong where an image is made or read.
pub type ImageError = Failure<ImageRefusal>;
