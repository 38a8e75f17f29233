// Why a call is refused: one enum for the whole library, with the numbers that are printed.
ghost use Rattle.std.specs.Prelude.{◌≡◌, Some, decimal};
ghost use Rattle.coding.specs.Refusals.{number_of};

use std::error::Error;
use std::fmt;
use std::fmt::{Display, Formatter, Write};

// In checking order: where several apply, the lowest number is the answer unless a call says another order.
#[derive(Clone, Copy, PartialEq, Eq, Debug)]
pub enum Refusal {
    // A text has more than 65,000 bytes.
    TextTooLong = 1,
    // A byte is no lowercase letter, decimal digit, blank or line feed.
    ForeignByte = 2,
    // The names line is missing or against its rule.
    BadNames = 3,
    // A value line is against its rule.
    BadValues = 4,
    // The number of value lines differs from the number of names.
    NotSquare = 5,
    // A length or size is 0, above the coding's width or, for a tally, above 60.
    LengthOutOfRange = 6,
    // The splits are above 6 or above the size.
    SplitsOutOfRange = 7,
    // The caller's rows or output are fewer than the call needs.
    TooLittleRoom = 8,
    // A place, a row, a share or a line has too high a number.
    NumberOutOfRange = 9,
    // A digit is above 2.
    DigitTooLarge = 10,
    // A given vector or matrix row has a non-zero digit at or above the length.
    BeyondLength = 11,
    // The rank is above 16.
    RankTooLarge = 12,
    // The share is already booked.
    ShareBooked = 13,
    // The share is not booked.
    ShareNotBooked = 14,
    // A share is missing.
    ShareMissing = 15,
}

impl Refusal {
    // The number that is printed for the refusal.
    pub fn number(self) -> u8
        ensures { result ≡ number_of self }
    {
        self as u8
    }
}

impl Display for Refusal {
    ghost output = { λ e. Some (decimal (number_of e)) };

    fn fmt<W: Write>(&self, f: &mut Formatter<W>) -> fmt::Result {
        write!(f, "{}", self.number())
    }
}

impl Error for Refusal {}
