// A stack's words after a change.
ghost use Rattle.std.specs.Prelude.{◌≡◌, ◌+◌, ◌≤◌, ◌++◌, length, drop, slice_index, slice_set};
ghost use Rattle.stacks.specs.Changes.{few_words, pinned as pinned_at, settled};
ghost use Rattle.stacks.specs.Pins.{Pins};
ghost use Rattle.stacks.specs.Words.{words_in};

use super::changes::{Change, Few};
use super::contents::Words;

impl Words {
    // Carries a change out if 64 words hold what it leaves; else nothing changes.
    pub fn settle(&mut self, change: Change)
        ensures value { words_in self.new ≡ settled change (words_in self.old) }
        ensures pins { Pins }
    {
        if self.depth_after(change) > 64 {
            return;
        }
        match change {
            Change::Replace(off, on) => {
                self.take_off(off);
                self.put_on(on);
            }
            Change::Pin(place) => self.pin(place),
        }
    }

    fn take_off(&mut self, off: usize)
        ensures { words_in self.new ≡ drop off (words_in self.old) }
    {
        self.top += off.min(64 - self.top);
    }

    fn put_on(&mut self, on: Few)
        requires { length (few_words on) + length (words_in self.old) ≤ 64 }
        ensures { words_in self.new ≡ few_words on ++ words_in self.old }
    {
        match on {
            Few::Zero => {}
            Few::One(words) => self.push(words),
            Few::Two(words) => self.push(words),
            Few::Three(words) => self.push(words),
            Few::Four(words) => self.push(words),
        }
    }

    // Of a number that is known before the program runs: so a word or two are put down one by one, with no call to copy
    // them.
    fn push<const N: usize>(&mut self, words: [u32; N])
        requires { length words + length (words_in self.old) ≤ 64 }
        ensures { words_in self.new ≡ words.entry ++ words_in self.old }
    {
        let top = self.top - N;
        self.cells[top..self.top].copy_from_slice(&words);
        self.top = top;
    }

    fn pin(&mut self, place: usize)
        ensures { words_in self.new ≡ pinned_at place (words_in self.old) }
    {
        self.copy_top(place);
        self.take_off(1);
    }

    fn copy_top(&mut self, place: usize)
        ensures { words_in self.new ≡ slice_set (words_in self.old) place (slice_index (words_in self.old) 0) }
    {
        let words = &mut self.cells[self.top..];
        if place < words.len() {
            words[place] = words[0];
        }
    }
}
