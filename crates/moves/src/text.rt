// Moves as people write them: `st 0: R1 N+`, `get 3: F2`, `offset -8`.
ghost use Rattle.std.specs.Prelude.{◌≡◌, Some};
ghost use Rattle.moves.specs.Text.{load_word, mode_text, move_text, register_text, set_text, store_word};

use super::moving::Move;
use super::parts::{Index, Mode, Register, SetNumber, Size};
use super::selectors::{Access, Reach};
use super::side::SideMove;
use codes::numbers::Numbered;
use std::fmt;

// A size has two words, so that no one `Display` could serve both.
fn load_word(size: Size) -> &'static str
    ensures { result.now ≡ load_word size }
{
    match size {
        Size::One => "ldb",
        Size::Two => "ldh",
        Size::Four => "ld",
        Size::Eight => "ld2",
    }
}

fn store_word(size: Size) -> &'static str
    ensures { result.now ≡ store_word size }
{
    match size {
        Size::One => "stb",
        Size::Two => "sth",
        Size::Four => "st",
        Size::Eight => "st2",
    }
}

impl fmt::Display for SetNumber {
    ghost output = { λ set. Some (set_text set) };

    fn fmt<W: fmt::Write>(&self, f: &mut fmt::Formatter<W>) -> fmt::Result {
        write!(f, "{}", self.number())
    }
}

impl fmt::Display for Mode {
    ghost output = { λ mode. Some (mode_text mode) };

    fn fmt<W: fmt::Write>(&self, f: &mut fmt::Formatter<W>) -> fmt::Result {
        f.write_str(match self {
            Mode::Still => "",
            Mode::Plus(Index::N) => "+N",
            Mode::Step(Index::N) => " N+",
            Mode::PlusStep(Index::N) => "+N+",
            Mode::Plus(Index::Top) => "+s0",
            Mode::Step(Index::Top) => " s0+",
            Mode::PlusStep(Index::Top) => "+s0+",
        })
    }
}

impl fmt::Display for Register {
    ghost output = { λ register. Some (register_text register) };

    fn fmt<W: fmt::Write>(&self, f: &mut fmt::Formatter<W>) -> fmt::Result {
        f.write_str(match self {
            Register::R => "R",
            Register::N => "N",
            Register::L => "L",
            Register::F => "F",
        })
    }
}

impl fmt::Display for SideMove {
    ghost output = { λ it. Some (move_text it.side it.made) };

    fn fmt<W: fmt::Write>(&self, f: &mut fmt::Formatter<W>) -> fmt::Result {
        let side = self.side;
        match self.made {
            Move::Idle => f.write_str("none"),
            Move::Offset(value) => write!(f, "offset {value}"),
            Move::Load(size, Reach { port, mode }) => write!(
                f,
                "{} {}: R{}{mode}",
                load_word(size),
                side.stack(port.stack),
                port.set
            ),
            Move::Store(size, Reach { port, mode }) => write!(
                f,
                "{} {}: R{}{mode}",
                store_word(size),
                side.stack(port.stack),
                port.set
            ),
            Move::Set(Access { register, port }) => write!(
                f,
                "set {}: {register}{}",
                side.stack(port.stack),
                port.set
            ),
            Move::Get(Access { register, port }) => write!(
                f,
                "get {}: {register}{}",
                side.stack(port.stack),
                port.set
            ),
        }
    }
}
