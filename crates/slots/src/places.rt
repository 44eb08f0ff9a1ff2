// Operations that move words within their stack or copy one to its top.
ghost use Rattle.std.specs.Prelude.{◌≡◌};
ghost use Rattle.operations.specs.Places.{place_number};
ghost use Rattle.effects.specs.Operands.{placed, words_of};
ghost use Rattle.slots.specs.Left.{left};
ghost use Rattle.slots.specs.Slots.{picking, pinning};
ghost use Rattle.stacks.specs.Held.{held};

use super::slot::Slot;
use codes::numbers::Numbered;
use drafts::draft::Draft;
use operations::operands::Source;
use operations::places::Place;
use stacks::changes::Change;
use stacks::stack::Stack;

impl Slot<'_> {
    pub fn pick(&self, source: Source) -> Option<Draft>
        ensures { left result (held self.now.own.now) ≡ picking (held self.now.own.now) (placed source (held self.now.own.now).words (words_of self.now.stacks.now)) }
    {
        let change = self.reach().source_change(source)?;
        Some(Draft::changed(self.own, change))
    }
}

pub fn pin(own: &Stack, place: Place) -> Option<Draft>
    ensures { left result (held own.now) ≡ pinning (place_number place) (held own.now) }
{
    let place = usize::from(place.number());
    (place < own.words.depth()).then_some(Draft::changed(own, Change::Pin(place)))
}
