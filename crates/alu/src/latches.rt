// What goes into a multiplier's latch, and what is fetched from it.
ghost use Rattle.std.specs.Prelude.{◌≡◌};
ghost use Rattle.alu.specs.Alu.{fetched, product};

use operations::kinds::{Fetch, Multiply};
use words::fetches::Accumulated;
use words::{fetches, products};

// The number that the latch then has: n1 is the word below the top, n2 the top.
pub fn product(multiply: Multiply, n1: u32, n2: u32) -> u64
    ensures { result ≡ product multiply n1 n2 }
{
    match multiply {
        Multiply::Pass => products::pass(n1, n2),
        Multiply::Mul => products::mul(n1, n2),
        Multiply::Umul => products::umul(n1, n2),
    }
}

// The number fetched; an accumulating fetch works on the number before it, and any other leaves its carry and its count.
pub fn fetched(fetch: Fetch, latch: u64, before: Accumulated) -> Accumulated
    ensures { result ≡ fetched fetch latch before }
{
    match fetch {
        Fetch::Plain => Accumulated {
            value: fetches::fetch(latch),
            ..before
        },
        Fetch::Negated => Accumulated {
            value: fetches::fetch_negated(latch),
            ..before
        },
        Fetch::Added => fetches::fetch_added(latch, before),
        Fetch::Subtracted => fetches::fetch_subtracted(latch, before),
    }
}
