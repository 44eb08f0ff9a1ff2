// The two words of an operation, and what is left below them, read without changing the stack.
ghost use Rattle.std.specs.Prelude.{◌≡◌, ◌∷◌};
ghost use Rattle.effects.specs.Copies.{Copies};
ghost use Rattle.effects.specs.Operands.{effect, moved, top_two, top_two_of, words_of};
ghost use Rattle.effects.specs.Reading.{read_two, under_words};
ghost use Rattle.stacks.specs.Changes.{few_words};
ghost use Rattle.stacks.specs.Words.{words_in};

use super::reach::Reach;
use codes::numbers::Numbered;
use operations::operands::{Operand, Source};
use operations::places::Near;
use stacks::changes::Few;
use stacks::contents::Words;

// Words that stay below an operation's two though they lay above one of them. They are two at most, so that a word on
// top of them is always a few: a `Few` in their place would not tell.
#[derive(Clone, Copy, Debug, PartialEq, Eq)]
pub enum Under {
    Nothing,
    One(u32),
    Two(u32, u32),
}

impl From<Under> for Few {
    ghost from_gives = { λ under few. few_words few ≡ under_words under };

    // They alone.
    fn from(under: Under) -> Few {
        match under {
            Under::Nothing => Few::Zero,
            Under::One(a) => Few::One([a]),
            Under::Two(a, b) => Few::Two([a, b]),
        }
    }
}

impl Under {
    // A word on top of them.
    pub fn with(self, top: u32) -> Few
        ensures { few_words result ≡ top ∷ under_words self }
    {
        match self {
            Under::Nothing => Few::One([top]),
            Under::One(a) => Few::Two([top, a]),
            Under::Two(a, b) => Few::Three([top, a, b]),
        }
    }
}

// n1 and n2, and the rest: `under`, and then all but the first `off` words.
#[derive(Clone, Copy, Debug, PartialEq, Eq)]
pub struct Two {
    pub n1: u32,
    pub n2: u32,
    pub off: usize,
    pub under: Under,
}

// The top, below a word from elsewhere.
fn below(own: &Words, n2: u32) -> Option<Two>
    ensures { read_two result (words_in own.now) ≡ top_two (n2 ∷ words_in own.now) }
{
    own.get(0).map(|n1| Two {
        n1,
        n2,
        off: 1,
        under: Under::Nothing,
    })
}

fn moved_two(own: &Words, near: Near) -> Option<Two>
    ensures { read_two result (words_in own.now) ≡ top_two_of (moved near (words_in own.now)) }
{
    let (n1, n2, off, under) = match (near, own.as_slice()) {
        (Near::S0, &[n2, n1, ..]) => (n1, n2, 2, Under::Nothing),
        (Near::S1, &[n1, n2, ..]) => (n1, n2, 2, Under::Nothing),
        (Near::S2, &[n1, a, n2, ..]) => (n1, n2, 3, Under::One(a)),
        (Near::S3, &[n1, a, b, n2, ..]) => (n1, n2, 4, Under::Two(a, b)),
        _ => return None,
    };
    Some(Two { n1, n2, off, under })
}

impl Reach<'_> {
    pub fn operand_two(&self, operand: Operand) -> Option<Two>
        ensures value { read_two result (words_in self.now.own.now) ≡ top_two_of (effect operand (words_in self.now.own.now) (words_of self.now.stacks.now)) }
        ensures copies { Copies }
    {
        let n2 = match operand {
            Operand::Source(Source::Own(place)) => self.own.get(usize::from(place.number()))?,
            Operand::Source(Source::Other(stack, near)) => self.other_word(stack, near)?,
            Operand::Source(Source::Moved(near)) => return moved_two(self.own, near),
            Operand::Constant(constant) => constant.word(),
        };
        below(self.own, n2)
    }
}
