// What happens to a stack's words: a few come off and a few go on, or one is put in another's place.
ghost use Rattle.std.specs.Prelude.{◌≡◌, ◌≤◌, length};
ghost use Rattle.stacks.specs.Changes.{few_words};
ghost use Rattle.std.specs.List.{slice_get};

// Words that go on, the top first: by their number, so that they need no heap and are `Copy`.
#[derive(Clone, Copy, Debug, PartialEq, Eq)]
pub enum Few {
    Zero,
    One([u32; 1]),
    Two([u32; 2]),
    Three([u32; 3]),
    Four([u32; 4]),
}

#[derive(Clone, Copy, Debug, PartialEq, Eq)]
pub enum Change {
    // so many words come off, and these go on
    Replace(usize, Few),
    // the top goes to this place, and is gone
    Pin(usize),
}

impl Few {
    fn words(&self) -> &[u32]
        ensures value { result.now ≡ few_words self.now }
        ensures below { length result.now ≤ 4 }
    {
        match self {
            Few::Zero => &[],
            Few::One(words) => words,
            Few::Two(words) => words,
            Few::Three(words) => words,
            Few::Four(words) => words,
        }
    }

    pub fn len(self) -> usize
        ensures value { result ≡ length (few_words self) }
        ensures below { result ≤ 4 }
    {
        self.words().len()
    }

    pub fn get(self, place: usize) -> Option<u32>
        ensures { result ≡ slice_get (few_words self) place }
    {
        self.words().get(place).copied()
    }
}
