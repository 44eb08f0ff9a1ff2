// Refusals: each has a number, and the question that got a no.
ghost use Rattle.std.specs.Prelude.{◌≡◌, ℕ, List, Some};
ghost use Rattle.std.specs.Fmt.{DisplaysOnOk};
ghost use Rattle.questions.specs.Refusals.{refusal_text};

use std::fmt;

pub trait Refusal: Copy {
    ghost number: { Self → ℕ };

    ghost question: { Self → List ℕ };

    // The number under which a user knows it.
    fn number(self) -> u16
        ensures { result ≡ number self };

    // What was asked.
    fn question(self) -> &'static str
        ensures { result.now ≡ question self };

    // Writes `NUMBER: QUESTION`, as each refusal is shown.
    final fn show<W: fmt::Write>(self, f: &mut fmt::Formatter<W>) -> fmt::Result
        ensures { DisplaysOnOk W.write_str_gives f.old result (Some (refusal_text (number self) (question self))) f.new }
    {
        write!(f, "{}: {}", self.number(), self.question())
    }
}
