// Operations that fetch or store a register: the instruction pointer, the carry count, the latch.
ghost use Rattle.std.specs.Prelude.{◌≡◌, drop};
ghost use Rattle.slots.specs.Left.{left};
ghost use Rattle.drafts.specs.Shown.{shown};
ghost use Rattle.slots.specs.Slots.{counting, fetching, jumping, paired, special};
ghost use Rattle.stacks.specs.Held.{held};

use super::slot::Slot;
use super::tops::push;
use alu::latches::fetched;
use drafts::draft::Draft;
use operations::kinds::{Fetch, Special};
use stacks::changes::{Change, Few};
use stacks::stack::Stack;
use words::fetches::Accumulated;
use words::flags::Flags;
use words::pair::Pair;

fn store_ip(own: &Stack) -> Option<Draft>
    ensures { left result (held own.now) ≡ jumping (held own.now) (held own.now).words }
{
    let top = own.words.get(0)?;
    Some(Draft {
        target: Some(top / 8 * 8),
        ..Draft::changed(own, Change::Replace(1, Few::Zero))
    })
}

fn store_count(own: &Stack) -> Option<Draft>
    ensures { left result (held own.now) ≡ counting (held own.now) (held own.now).words }
{
    let top = own.words.get(0)?;
    Some(Draft {
        count: top,
        ..Draft::changed(own, Change::Replace(1, Few::Zero))
    })
}

// A number of 64 bits in the place of the first `off` words, its high word on top.
fn put_pair(own: &Stack, off: usize, number: Accumulated) -> Draft
    ensures { shown result (held own.now) ≡ paired (held own.now) (drop off (held own.now).words) number }
{
    let pair = Pair::from(number.value);
    Draft {
        flags: Flags {
            carry: number.carry,
            ..own.flags
        },
        count: number.count,
        paired: true,
        ..Draft::changed(own, Change::Replace(off, Few::Two([pair.high, pair.low])))
    }
}

impl Slot<'_> {
    pub fn access(&self, kind: Special) -> Option<Draft>
        ensures { left result (held self.now.own.now) ≡ special kind (held self.now.own.now) self.now.next }
    {
        match kind {
            Special::FetchIp => Some(push(self.own, self.next)),
            Special::StoreIp => store_ip(self.own),
            Special::FetchCount => Some(push(self.own, self.own.count)),
            Special::StoreCount => store_count(self.own),
        }
    }

    pub fn fetch_latch(&self, fetch: Fetch) -> Option<Draft>
        ensures { left result (held self.now.own.now) ≡ fetching fetch (held self.now.own.now) self.now.latch }
    {
        let own = self.own;
        let (off, value) = match fetch {
            Fetch::Plain | Fetch::Negated => (0, 0),
            Fetch::Added | Fetch::Subtracted => {
                let pair = Pair {
                    high: own.words.get(0)?,
                    low: own.words.get(1)?,
                };
                (2, u64::from(pair))
            }
        };
        let before = Accumulated {
            value,
            carry: own.flags.carry,
            count: own.count,
        };
        Some(put_pair(own, off, fetched(fetch, self.latch, before)))
    }
}
