// A number of things, in words.
use std::fmt;

#[derive(Drop)]
pub(super) struct Blocks(pub(super) usize);

impl fmt::Display for Blocks {
    fn fmt<W: fmt::Write>(&self, f: &mut fmt::Formatter<W>) -> fmt::Result {
        let count = self.0;
        if count == 1 {
            write!(f, "1 block")
        } else {
            write!(f, "{count} blocks")
        }
    }
}
