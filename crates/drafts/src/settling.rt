// What a draft shows of its stack, and the stack as the draft leaves it.
ghost use Rattle.std.specs.Prelude.{◌≡◌, length};
ghost use Rattle.drafts.specs.Shown.{settled_by, shown};
ghost use Rattle.stacks.specs.Held.{held};
ghost use Rattle.std.specs.List.{slice_get};

use super::draft::Draft;
use stacks::stack::Stack;

impl Draft {
    // How many words the stack has after the slot.
    pub fn depth(&self, own: &Stack) -> usize
        ensures { result ≡ length (shown self.now (held own.now)).stack.words }
    {
        own.words.depth_after(self.change)
    }

    // The word so many places below the top after the slot; the top is at place 0.
    pub fn word(&self, own: &Stack, place: usize) -> Option<u32>
        ensures { result ≡ slice_get (shown self.now (held own.now)).stack.words place }
    {
        own.words.get_after(self.change, place)
    }

    // The stack becomes what the draft shows; where 64 words do not hold that, nothing changes.
    pub fn settle(&self, own: &mut Stack)
        ensures { held own.new ≡ settled_by self.now (held own.old) }
    {
        if self.depth(own) > 64 {
            return;
        }
        own.words.settle(self.change);
        own.flags = self.flags;
        own.count = self.count;
    }
}
