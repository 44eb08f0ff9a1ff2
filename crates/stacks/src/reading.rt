// The words of a stack, from the top, and those that a change would leave.
ghost use Rattle.std.specs.Prelude.{◌≡◌, ◌≤◌, [], length, drop, slice_index};
ghost use Rattle.stacks.specs.Changes.{changed};
ghost use Rattle.stacks.specs.Words.{words_in};
ghost use Rattle.std.specs.List.{slice_get};

use super::changes::Change;
use super::contents::Words;

impl Words {
    pub fn new() -> Words
        ensures { words_in result ≡ [] }
    {
        Words {
            cells: [0; 64],
            top: 64,
        }
    }

    // The words, the top first.
    pub fn as_slice(&self) -> &[u32]
        ensures value { result.now ≡ words_in self.now }
        ensures below { length (words_in self.now) ≤ 64 }
    {
        &self.cells[self.top..]
    }

    pub fn depth(&self) -> usize
        ensures value { result ≡ length (words_in self.now) }
        ensures below { result ≤ 64 }
    {
        self.as_slice().len()
    }

    // The word so many places below the top.
    pub fn get(&self, place: usize) -> Option<u32>
        ensures { result ≡ slice_get (words_in self.now) place }
    {
        self.as_slice().get(place).copied()
    }

    // The same, and 0 where there is no such word.
    pub fn word(&self, place: usize) -> u32
        ensures { result ≡ slice_index (words_in self.now) place }
    {
        self.get(place).unwrap_or(0)
    }

    // How many words a change would leave.
    pub fn depth_after(&self, change: Change) -> usize
        ensures { result ≡ length (changed change (words_in self.now)) }
    {
        match change {
            Change::Replace(off, on) => on.len() + self.depth().saturating_sub(off),
            Change::Pin(_) => self.depth().saturating_sub(1),
        }
    }

    // A word below those that come off.
    fn get_under(&self, off: usize, place: usize) -> Option<u32>
        ensures { result ≡ slice_get (drop off (words_in self.now)) place }
    {
        self.as_slice().get(off..)?.get(place).copied()
    }

    // The word that a change would leave so many places below the top.
    #[tactic(auto, using(crate::proofs::Pins::pin_here, crate::proofs::Pins::pin_else, std::proofs::lemmas::Option::slice_get_within))]
    pub fn get_after(&self, change: Change, place: usize) -> Option<u32>
        ensures { result ≡ slice_get (changed change (words_in self.now)) place }
    {
        match change {
            Change::Replace(off, on) => on
                .get(place)
                .or_else(|| self.get_under(off, place - on.len())),
            Change::Pin(pinned) => {
                let word = self.get_under(1, place)?;
                if pinned > 0 && place == pinned - 1 {
                    self.get(0)
                } else {
                    Some(word)
                }
            }
        }
    }
}
