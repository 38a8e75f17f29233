// The plain numbers of a tally.
ghost use Rattle.std.specs.Prelude.{◌≡◌, ◌^◌, ◌≤◌, MatchResult};
ghost use Rattle.coding.specs.Lengths.{InRange};
ghost use Rattle.coding.specs.Refusals.{number_of};

use coding::{Coding, Refusal, check_length};

// The most rows that a matrix may have.
pub const MOST_ROWS: usize = 60;

// How many rows the matrix has, and the exponent of the number of shares.
#[derive(Clone, Copy)]
pub struct Sizes {
    pub(crate) size: usize,
    pub(crate) splits: usize,
    ghost small: { size ≤ 60 },
    ghost few: { splits ≤ 6 },
    ghost within: { splits ≤ size },
}

impl Sizes {
    // How many shares there are.
    pub(crate) fn share_count(self) -> usize
        ensures number { result ≡ 2 ^ self.splits }
        ensures most { result ≤ 64 }
    {
        1 << self.splits
    }
}

// Whether a tally can have a matrix of so many rows.
pub(crate) fn check_size<C: Coding>(size: usize) -> Result<(), Refusal>
    ensures { MatchResult result
        (λ _. InRange C.Coding.width size × (size ≤ 60))
        (λ e. (number_of e ≡ 6) × (InRange C.Coding.width size × (size ≤ 60) → ⊥)) }
{
    check_length(size, C::width().min(MOST_ROWS))
}
