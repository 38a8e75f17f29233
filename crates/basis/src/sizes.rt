// The plain numbers of a basis.
ghost use Rattle.std.specs.Prelude.{◌≤◌};

// How long the vectors are, and how many rows hold them.
#[derive(Clone, Copy)]
pub struct Sizes {
    pub(crate) length: usize,
    pub(crate) rank: usize,
    ghost ranked: { rank ≤ length },
}
