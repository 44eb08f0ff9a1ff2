// Bundles as people write them: `add s1; sub s0p; nop; nop; ld 0: R1 N+; none`.
ghost use Rattle.bundles.specs.Text.{bundle_text, ending_text, setup_text, tail_text};
ghost use Rattle.std.specs.Prelude.{Some};

use super::bundle::Bundle;
use super::ending::Ending;
use super::tails::{Setup, Tail};
use moves::side::{Side, SideMove};
use std::fmt;

impl fmt::Display for Setup {
    ghost output = { λ setup. Some (setup_text setup) };

    fn fmt<W: fmt::Write>(&self, f: &mut fmt::Formatter<W>) -> fmt::Result {
        let [zero, one, two, three] = self.checks;
        write!(f, "{zero}; {one}; {two}; {three}")
    }
}

impl fmt::Display for Tail {
    ghost output = { λ tail. Some (tail_text tail) };

    fn fmt<W: fmt::Write>(&self, f: &mut fmt::Formatter<W>) -> fmt::Result {
        match self {
            Tail::Moves(even, odd) => write!(
                f,
                "{}; {}",
                SideMove {
                    side: Side::Even,
                    made: *even,
                },
                SideMove {
                    side: Side::Odd,
                    made: *odd,
                }
            ),
            Tail::Setup(setup) => write!(f, "{setup}"),
            Tail::Branch(branch) => write!(f, "{branch}"),
        }
    }
}

impl fmt::Display for Ending {
    ghost output = { λ ending. Some (ending_text ending) };

    fn fmt<W: fmt::Write>(&self, f: &mut fmt::Formatter<W>) -> fmt::Result {
        match self {
            Ending::Slot(operation, tail) => write!(f, "{operation}; {tail}"),
            Ending::Call(target) => write!(f, "call {target}"),
            Ending::Jump(target) => write!(f, "jmp {target}"),
        }
    }
}

impl fmt::Display for Bundle {
    ghost output = { λ bundle. Some (bundle_text bundle) };

    fn fmt<W: fmt::Write>(&self, f: &mut fmt::Formatter<W>) -> fmt::Result {
        let [zero, one, two] = self.slots;
        write!(f, "{zero}; {one}; {two}; {}", self.ending)
    }
}
