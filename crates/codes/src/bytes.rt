// Values by their bytes.
ghost use Rattle.std.specs.Prelude.{◌≡◌, ℕ, IfSome, List, Option, Some};

// A type whose values are written as so many bytes: what is read is written so, and each value comes back from its own bytes.
pub trait Coded<const N: usize>: Copy {
    // What bytes stand for.
    ghost decoded: { List ℕ → Option Self };

    // The bytes of a value.
    ghost encoded: { Self → List ℕ };

    fn decode(bytes: &[u8; N]) -> Option<Self>
        ensures value { result ≡ decoded bytes.now }
        ensures only { IfSome result (λ it. encoded it ≡ bytes.now) };

    fn encode(self) -> [u8; N]
        ensures value { result ≡ encoded self }
        ensures back { decoded result ≡ Some self };
}
