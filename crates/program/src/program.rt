// A program: the bundles of an accepted code image, in order.
ghost use Rattle.std.specs.Prelude.{◌≡◌, ◌*◌, ◌≤◌, vec_len};

use bundles::bundle::Bundle;

// Bundle i has the address 8 times i; the end is the address after the last one.
#[derive(Drop)]
pub struct Program {
    pub(super) bundles: Vec<Bundle>,
    ghost few: { vec_len bundles ≤ 63488 },
}

impl Program {
    pub fn bundles(&self) -> &[Bundle]
        ensures { result.now ≡ self.now.bundles.items }
    {
        self.bundles.as_slice()
    }

    pub fn end(&self) -> u32
        ensures { result ≡ vec_len self.now.bundles * 8 }
    {
        self.bundles.len() as u32 * 8
    }
}
