// What a vector taken in came to.
ghost use Rattle.std.specs.Prelude.{◌≡◌};
ghost use Rattle.basis.specs.Words.{word_of};

// A vector is known if it is a combination of the rows, and otherwise the rank has grown.
#[derive(Clone, Copy, PartialEq, Eq, Debug)]
pub enum Taken {
    Known,
    Grown,
}

impl Taken {
    // The word by which contracts tell the two apart. It is no `Display`, so that it is compared without memory.
    pub fn word(self) -> &'static str
        ensures { result.now ≡ word_of self }
    {
        match self {
            Taken::Known => "known",
            Taken::Grown => "grown",
        }
    }
}
