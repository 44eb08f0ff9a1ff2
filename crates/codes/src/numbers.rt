// Values by number.
ghost use Rattle.std.specs.Prelude.{◌≡◌, ◌<◌, ℕ, IfSome, Option, Some};
ghost use Rattle.codes.specs.Bits.{bit, bits};
ghost use Rattle.std.specs.List.{slice_get};

// A type whose values have numbers of their own: what a number stands for has that number, and each value comes back from its own.
// Each impl has its own table: no macro or derive of this repository may write one.
pub trait Numbered: Copy {
    // What a number stands for.
    ghost numbered: { ℕ → Option Self };

    // The number of a value.
    ghost number_of: { Self → ℕ };

    // Every number lies below.
    ghost bound: { ℕ };

    fn from_number(number: u8) -> Option<Self>
        ensures value { result ≡ numbered number }
        ensures only { IfSome result (λ it. number_of it ≡ number) };

    fn number(self) -> u8
        ensures value { result ≡ number_of self }
        ensures back { numbered result ≡ Some self }
        ensures below { result < bound };
}

// A bit: 1 where it is set.
impl Numbered for bool {
    ghost numbered = { slice_get bits };

    ghost number_of = { bit };

    ghost bound = { 2 };

    fn from_number(number: u8) -> Option<bool> {
        match number {
            0 => Some(false),
            1 => Some(true),
            _ => None,
        }
    }

    fn number(self) -> u8 {
        u8::from(self)
    }
}
