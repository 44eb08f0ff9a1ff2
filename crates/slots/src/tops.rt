// Operations that work on the top of their stack, or put a word on it.
ghost use Rattle.std.specs.Prelude.{◌≡◌, ◌∷◌, ◌++◌, drop};
ghost use Rattle.slots.specs.Left.{left};
ghost use Rattle.effects.specs.Reading.{under_words};
ghost use Rattle.drafts.specs.Shown.{flagged, plain, shown};
ghost use Rattle.slots.specs.Slots.{appending, flagging, scanning, shifting};
ghost use Rattle.stacks.specs.Held.{held};

use alu::tops::{append, flag_of, scanned, shifted};
use drafts::draft::Draft;
use effects::twos::Under;
use operations::kinds::{Scan, Shift};
use stacks::changes::{Change, Few};
use stacks::stack::Stack;
use words::condition::Condition;
use words::flagged::Flagged;

// A word with its flags in the place of the first `off` words, above those that stay.
pub fn put_flagged(own: &Stack, off: usize, under: Under, word: Flagged) -> Draft
    ensures { shown result (held own.now) ≡ flagged (held own.now) word (under_words under ++ drop off (held own.now).words) }
{
    Draft {
        flags: word.flags,
        ..Draft::changed(own, Change::Replace(off, under.with(word.word)))
    }
}

pub fn push(own: &Stack, word: u32) -> Draft
    ensures { shown result (held own.now) ≡ plain (held own.now) (word ∷ (held own.now).words) }
{
    Draft::changed(own, Change::Replace(0, Few::One([word])))
}

// A word in the place of the top.
fn replace_top(own: &Stack, word: u32) -> Draft
    ensures { shown result (held own.now) ≡ plain (held own.now) (word ∷ drop 1 (held own.now).words) }
{
    Draft::changed(own, Change::Replace(1, Few::One([word])))
}

pub fn append_byte(own: &Stack, byte: u8) -> Option<Draft>
    ensures { left result (held own.now) ≡ appending byte (held own.now) (held own.now).words }
{
    let top = own.words.get(0)?;
    Some(replace_top(own, append(top, byte)))
}

pub fn flag(own: &Stack, condition: Condition) -> Option<Draft>
    ensures { left result (held own.now) ≡ flagging condition (held own.now) (held own.now).words }
{
    let top = own.words.get(0)?;
    Some(replace_top(own, flag_of(condition, top, own.flags)))
}

pub fn scan_top(own: &Stack, scan: Scan) -> Option<Draft>
    ensures { left result (held own.now) ≡ scanning scan (held own.now) (held own.now).words }
{
    let top = own.words.get(0)?;
    Some(replace_top(own, scanned(scan, top)))
}

pub fn shift_top(own: &Stack, shift: Shift) -> Option<Draft>
    ensures { left result (held own.now) ≡ shifting shift (held own.now) (held own.now).words }
{
    let top = own.words.get(0)?;
    let word = shifted(shift, top, own.flags.carry);
    Some(put_flagged(own, 1, Under::Nothing, word))
}
