// What may be done with a byte of a memory.
ghost use Rattle.std.specs.Prelude.{Some};
ghost use Rattle.memory.specs.Marks.{mark_text};

use std::fmt;

#[derive(Clone, Copy, PartialEq, Eq, Debug)]
pub enum Mark {
    // It is read and written.
    Open,
    // It is read only.
    Kept,
    // It is neither read nor written.
    Spoiled,
}

impl fmt::Display for Mark {
    ghost output = { λ mark. Some (mark_text mark) };

    fn fmt<W: fmt::Write>(&self, f: &mut fmt::Formatter<W>) -> fmt::Result {
        f.write_str(match self {
            Mark::Open => "open",
            Mark::Kept => "kept",
            Mark::Spoiled => "spoiled",
        })
    }
}
