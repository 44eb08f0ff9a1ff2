ghost use Rattle.std.specs.Prelude.{◌≤◌, length};

// A stack's words lie at the end of `cells` with the top at `top`, so that a push or a pop moves no other word. (An
// `ArrayVec` would not be `Copy`; and a model is none either that callers could use: what holds one is not copied
// from behind a reference, nor where it is passed by value twice.)
#[derive(Clone, Copy, Debug)]
pub struct Words {
    pub(crate) cells: [u32; 64],
    pub(crate) top: usize,
    ghost within: { top ≤ 64 },
    ghost few: { length cells ≤ 64 },
}
