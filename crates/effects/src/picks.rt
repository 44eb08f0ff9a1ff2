// What a pick makes of its stack: the effect of a place, as a change.
ghost use Rattle.std.specs.Prelude.{◌≡◌, [], ◌∷◌};
ghost use Rattle.effects.specs.Operands.{placed, moved, words_of};
ghost use Rattle.effects.specs.Reading.{read_change};
ghost use Rattle.stacks.specs.Words.{words_in};

use super::reach::Reach;
use codes::numbers::Numbered;
use operations::operands::Source;
use operations::places::Near;
use stacks::changes::{Change, Few};
use stacks::contents::Words;

// The word at a place moved to the top.
fn move_up(own: &Words, near: Near) -> Option<Change>
    ensures { read_change result (words_in own.now) ≡ moved near (words_in own.now) }
{
    match (near, own.as_slice()) {
        (Near::S0, &[_, ..]) => Some(Change::Replace(0, Few::Zero)),
        (Near::S1, &[x1, x0, ..]) => Some(Change::Replace(2, Few::Two([x0, x1]))),
        (Near::S2, &[x2, x1, x0, ..]) => Some(Change::Replace(3, Few::Three([x0, x2, x1]))),
        (Near::S3, &[x3, x2, x1, x0, ..]) => Some(Change::Replace(4, Few::Four([x0, x3, x2, x1]))),
        _ => None,
    }
}

impl Reach<'_> {
    // The change that a source makes of its stack when it is picked.
    pub fn source_change(&self, source: Source) -> Option<Change>
        ensures { read_change result (words_in self.now.own.now) ≡ placed source (words_in self.now.own.now) (words_of self.now.stacks.now) }
    {
        let copied = match source {
            Source::Own(place) => self.own.get(usize::from(place.number())),
            Source::Other(stack, near) => self.other_word(stack, near),
            Source::Moved(near) => return move_up(self.own, near),
        };
        copied.map(|word| Change::Replace(0, Few::One([word])))
    }
}
