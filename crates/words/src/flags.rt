// The two flags that stand beside the words of every stack.
#[derive(Clone, Copy, PartialEq, Eq, Debug)]
pub struct Flags {
    pub carry: bool,
    pub overflow: bool,
}
