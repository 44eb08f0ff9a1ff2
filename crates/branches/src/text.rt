// Conditions and branches as people write them: `?u>=`, `br 0&2 :0= -3`.
ghost use Rattle.std.specs.Prelude.{◌≡◌, Some};
ghost use Rattle.branches.specs.Text.{branch_text, check_text, choice_text, is_lone, no_bundle_text, offset_text, separator, stacks_text, target_text, too_far_text};

use super::branch::{Branch, Choice, Needed};
use super::checks::Check;
use super::offset::{Offset, TooFar};
use super::stacks::Stacks;
use super::targets::{NoBundle, Target};
use operations::places::StackNumber;
use std::fmt;

const STACKS: [StackNumber; 4] = [
    StackNumber::Zero,
    StackNumber::One,
    StackNumber::Two,
    StackNumber::Three,
];

impl fmt::Display for Check {
    ghost output = { λ check. Some (check_text check) };

    fn fmt<W: fmt::Write>(&self, f: &mut fmt::Formatter<W>) -> fmt::Result {
        let condition = self.condition;
        if self.pops {
            write!(f, "?{condition}")
        } else {
            write!(f, ":{condition}")
        }
    }
}

impl fmt::Display for Offset {
    ghost output = { λ offset. Some (offset_text offset) };

    fn fmt<W: fmt::Write>(&self, f: &mut fmt::Formatter<W>) -> fmt::Result {
        write!(f, "{}", i16::from(*self))
    }
}

impl fmt::Display for Target {
    ghost output = { λ target. Some (target_text target) };

    fn fmt<W: fmt::Write>(&self, f: &mut fmt::Formatter<W>) -> fmt::Result {
        write!(f, "{}", u32::from(*self))
    }
}

impl fmt::Display for TooFar {
    ghost output = { λ error. Some (too_far_text error) };

    fn fmt<W: fmt::Write>(&self, f: &mut fmt::Formatter<W>) -> fmt::Result {
        write!(f, "a branch by {} bundles goes too far", self.bundles)
    }
}

impl fmt::Display for NoBundle {
    ghost output = { λ error. Some (no_bundle_text error) };

    fn fmt<W: fmt::Write>(&self, f: &mut fmt::Formatter<W>) -> fmt::Result {
        write!(f, "no bundle stands at address {}", self.address)
    }
}

impl fmt::Display for Needed {
    ghost output = { λ needed. Some (separator needed) };

    fn fmt<W: fmt::Write>(&self, f: &mut fmt::Formatter<W>) -> fmt::Result {
        f.write_str(match self {
            Needed::One => "|",
            Needed::All => "&",
        })
    }
}

// The named stacks in a row, with a separator between any two.
#[derive(Clone, Copy)]
struct Row {
    needed: Needed,
    stacks: Stacks,
}

impl fmt::Display for Row {
    ghost output = { λ it. Some (stacks_text it.needed it.stacks) };

    fn fmt<W: fmt::Write>(&self, f: &mut fmt::Formatter<W>) -> fmt::Result {
        let needed = self.needed;
        let mut follows = false;
        for stack in STACKS {
            if self.stacks.names(stack) {
                if follows {
                    write!(f, "{needed}{stack}")?;
                } else {
                    write!(f, "{stack}")?;
                }
                follows = true;
            }
        }
        Ok(())
    }
}

// Whether all must hold of one stack alone, so that no separator says so.
fn is_lone(choice: Choice) -> bool
    ensures { result ≡ is_lone choice }
{
    choice.needed == Needed::All && choice.stacks.count() == 1
}

impl fmt::Display for Choice {
    ghost output = { λ choice. Some (choice_text choice) };

    fn fmt<W: fmt::Write>(&self, f: &mut fmt::Formatter<W>) -> fmt::Result {
        let row = Row {
            needed: self.needed,
            stacks: self.stacks,
        };
        let check = self.check;
        if is_lone(*self) {
            write!(f, "{row}& {check}")
        } else {
            write!(f, "{row} {check}")
        }
    }
}

impl fmt::Display for Branch {
    ghost output = { λ branch. Some (branch_text branch) };

    fn fmt<W: fmt::Write>(&self, f: &mut fmt::Formatter<W>) -> fmt::Result {
        let offset = self.offset;
        match self.choice {
            Some(choice) => write!(f, "br {choice} {offset}"),
            None => write!(f, "br {offset}"),
        }
    }
}
