// What programs read and print: the most bytes of a text that are read, and the answer of a square sheet's job.
ghost use Rattle.std.specs.Prelude.{◌++◌, Some, codes, decimal};

use sheet::LONGEST;
use std::fmt;
use std::fmt::{Display, Formatter, Write};

// One byte more than a text may have is enough to tell that it is too long.
pub const MOST_READ: u64 = LONGEST as u64 + 1;

// The form of a sheet has at most 64 names and 64 rows, so it has far fewer bytes than a sheet may have.
pub const MOST_WRITTEN: usize = LONGEST;

// How many rows and columns a matrix has, and its permanent modulo 3.
#[derive(Clone, Copy)]
pub struct Permanent {
    pub size: usize,
    pub digit: u8,
}

impl Display for Permanent {
    ghost output = { λ p. Some (decimal p.size ++ codes " " ++ decimal p.digit) };

    fn fmt<W: Write>(&self, f: &mut Formatter<W>) -> fmt::Result {
        let Permanent { size, digit } = *self;
        write!(f, "{size} {digit}")
    }
}
