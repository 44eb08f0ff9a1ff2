// What can go wrong where something is made on the heap: a refusal, or want of memory.
ghost use Rattle.std.specs.Prelude.{◌≡◌};
ghost use Rattle.questions.specs.Failures.{ForRefused, MapsTo, failure_text};
ghost use Rattle.questions.specs.declared.failures.Failure.TheVariants.{Refused as Is, OutOfMemory};

use super::refusals::Refusal;
use std::alloc::AllocError;
use std::error::Error;
use std::fmt;

// The error of a `Result`, so that `?` hands it on.
#[derive(Clone, Copy, PartialEq, Eq, Debug)]
pub enum Failure<R> {
    Refused(R),
    OutOfMemory,
}

impl<R> Failure<R> {
    // The same failure, with its refusal turned into another.
    pub fn map<S, F: FnOnce(R) -> S + Drop>(self, turn: F) -> Failure<S>
        requires { ForRefused self (F.pre turn) }
        ensures { MapsTo self (F.post turn) result }
    {
        match self {
            Failure::Refused(refusal) => Failure::Refused(turn(refusal)),
            Failure::OutOfMemory => Failure::OutOfMemory,
        }
    }

    // The same failure, its refusal as one of another kind.
    pub fn map_into<S: From<R>>(self) -> Failure<S>
        ensures { MapsTo self S.from_gives result }
    {
        match self {
            Failure::Refused(refusal) => Failure::Refused(S::from(refusal)),
            Failure::OutOfMemory => Failure::OutOfMemory,
        }
    }
}

impl<R> From<AllocError> for Failure<R> {
    ghost from_gives = { λ _ failure. failure ≡ OutOfMemory };

    fn from(_error: AllocError) -> Failure<R> {
        Failure::OutOfMemory
    }
}

impl<R: Refusal> From<R> for Failure<R> {
    ghost from_gives = { λ refusal failure. failure ≡ Is refusal };

    fn from(refusal: R) -> Failure<R> {
        Failure::Refused(refusal)
    }
}

impl<R: fmt::Display> fmt::Display for Failure<R> {
    ghost output = { failure_text R.output };

    fn fmt<W: fmt::Write>(&self, f: &mut fmt::Formatter<W>) -> fmt::Result {
        match self {
            Failure::Refused(refusal) => write!(f, "{refusal}"),
            Failure::OutOfMemory => write!(f, "there is not memory enough"),
        }
    }
}

impl<R: Error> Error for Failure<R> {}
