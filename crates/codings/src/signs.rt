// The sign coding: two words, 64 places.
ghost use Rattle.std.specs.Prelude.{◌≡◌, ℕ, ◌<◌, not, ◌&&◌};
ghost use Rattle.words.specs.Bit.{bit};
ghost use Rattle.algebra.specs.Modulo.{f3};
ghost use Rattle.codings.specs.SignWords.{digits, magnitude_of, sign_of};
ghost use Rattle.codings.specs.Sign.{meant_by, Alike};
ghost use Rattle.codings.specs.SignWordsLemmas.{digits_out};
ghost use Rattle.std.proofs.Common.{rules};

use crate::digits;
use crate::digits::check_digit;
use coding::{Coding, Lead, Refusal, Ternary, check_length, check_place};

// Bits (magnitude, sign) at a place: (1,0) is 1, (1,1) is 2, and both (0,0) and (0,1) are 0. Vectors lie in callers'
// rows, so any two words may be stored. The digits of an answer pin all of it but its loose bits, those of the sign at a 0.
#[derive(Clone, Copy, Debug)]
pub struct Signs {
    pub magnitude: u64,
    pub sign: u64,
}

impl Signs {
    // The two words that the digits pin: the magnitude, and the sign cleared at every 0.
    pub fn read(self) -> (u64, u64)
        ensures digits { (k : ℕ) → digits 64 result.0 result.1 k ≡ meant_by self k }
        ensures words { (result.0 ≡ magnitude_of 64 (meant_by self)) × (result.1 ≡ sign_of 64 (meant_by self)) }
    {
        (self.magnitude, self.magnitude & self.sign)
    }

    // The loose bits: whatever they are, the digits are the same.
    pub fn loose(self) -> u64
        ensures bits { (k : ℕ) → k < 64 → bit k result ≡ (not (bit k self.magnitude) && bit k self.sign) }
        ensures free { (x : Signs) → Alike x self → (k : ℕ) → meant_by x k ≡ meant_by self k }
    {
        !self.magnitude & self.sign
    }
}

impl Coding for Signs {
    ghost field = { f3 };

    ghost width = { 64 };

    ghost meant = { meant_by };

    // An answer may have any loose bits.
    ghost canonical = { λ _. Unit {0} };

    ghost some = { Prim.search rules };

    ghost wide = { Prim.search rules };

    ghost beyond = { λ x. digits_out 64 x.magnitude x.sign };

    fn width() -> usize {
        64
    }

    fn zero() -> Signs {
        Signs {
            magnitude: 0,
            sign: 0,
        }
    }

    // The place is tested here and not by `check_place`: a loop over the digits, as in `is_long`, becomes a test of whole words.
    fn digit(self, place: usize) -> Result<u8, Refusal> {
        if place >= 64 {
            return Err(Refusal::NumberOutOfRange);
        }
        if !words::holds(self.magnitude, place) {
            Ok(0)
        } else if words::holds(self.sign, place) {
            Ok(2)
        } else {
            Ok(1)
        }
    }

    fn change(self, place: usize, digit: u8) -> Result<Signs, Refusal> {
        check_place(place, 64)?;
        check_digit(digit)?;
        Ok(Signs {
            magnitude: words::put(self.magnitude, place, digit != 0),
            sign: words::put(self.sign, place, digit == 2),
        })
    }

    // The sign turns at every digit but 0.
    fn negation(self) -> Signs {
        Signs {
            magnitude: self.magnitude,
            sign: self.magnitude ^ self.sign,
        }
    }

    // In six word operations. The sum starts from the first sign, which turns where two equal digits are not 0, since
    // they add up to their negation, and where a 0 would not have the second digit's sign.
    fn sum(self, other: Signs) -> Signs {
        let turned = other.magnitude & (self.magnitude ^ (self.sign ^ other.sign));
        Signs {
            magnitude: turned | (self.magnitude ^ other.magnitude),
            sign: turned ^ self.sign,
        }
    }

    // In six word operations. The difference starts from the negated second vector, whose sign turns where the first
    // digit is not 0 and the two signs are unlike.
    fn difference(self, other: Signs) -> Signs {
        let unlike = self.magnitude & (self.sign ^ other.sign);
        Signs {
            magnitude: unlike | (self.magnitude ^ other.magnitude),
            sign: unlike ^ (other.magnitude ^ other.sign),
        }
    }

    fn product(self, other: Signs) -> Signs {
        Signs {
            magnitude: self.magnitude & other.magnitude,
            sign: self.sign ^ other.sign,
        }
    }

    // Two times a digit is its negation. Scaled by 1 the words stay as they are, where planes are stored as they are read.
    fn scaled(self, digit: u8) -> Result<Signs, Refusal> {
        match digit {
            0 => Ok(Signs::zero()),
            1 => Ok(self),
            2 => Ok(self.negation()),
            _ => Err(Refusal::DigitTooLarge),
        }
    }

    fn inverse(digit: u8) -> Result<u8, Refusal> {
        digits::inverse(digit)
    }

    // Both from ten word operations.
    fn sum_and_difference(self, other: Signs) -> (Signs, Signs) {
        let single = self.magnitude ^ other.magnitude;
        let signs = self.sign ^ other.sign;
        let turned = other.magnitude & (self.magnitude ^ signs);
        let unlike = self.magnitude & signs;
        (
            Signs {
                magnitude: turned | single,
                sign: turned ^ self.sign,
            },
            Signs {
                magnitude: unlike | single,
                sign: unlike ^ (other.magnitude ^ other.sign),
            },
        )
    }

    fn weight(self) -> usize {
        words::count(self.magnitude)
    }

    // The magnitude of the difference.
    fn distance(self, other: Signs) -> usize {
        let unlike = self.magnitude & (self.sign ^ other.sign);
        words::count(unlike | (self.magnitude ^ other.magnitude))
    }

    // A 1 is counted among the non-zero digits, and a 2 there and among the twos.
    fn dot(self, other: Signs) -> u8 {
        let p = self.product(other);
        let nonzero = words::count(p.magnitude);
        let twos = words::count(p.magnitude & p.sign);
        ((nonzero + twos) % 3) as u8
    }

    fn lead(self) -> Option<Lead> {
        if self.magnitude == 0 {
            return None;
        }
        let place = self.magnitude.trailing_zeros() as usize;
        let digit = if words::holds(self.sign, place) { 2 } else { 1 };
        Some(Lead { place, digit })
    }
}

impl Ternary for Signs {
    ghost three = { Prim.search rules };

    // Adding one to the twos clears those below the lowest other digit, and sets the place of that digit. Together with
    // the ones this is where the successor is not 0, and its twos are where this vector has its ones.
    fn next(self, n: usize) -> Result<Option<Signs>, Refusal> {
        check_length(n, 64)?;
        let low = words::below(n);
        if self.magnitude & !low != 0 {
            return Err(Refusal::BeyondLength);
        }
        let twos = self.magnitude & self.sign;
        if !twos & low == 0 {
            return Ok(None);
        }
        let ones = self.magnitude & !self.sign;
        Ok(Some(Signs {
            magnitude: ones | (twos + 1),
            sign: ones,
        }))
    }

    fn full_product(self, n: usize) -> Result<u8, Refusal> {
        check_length(n, 64)?;
        let low = words::below(n);
        if !self.magnitude & low != 0 {
            return Ok(0);
        }
        // No digit below n is 0, so no bit of the sign is loose there.
        let twos = words::count(self.sign & low);
        Ok(1 + (twos % 2) as u8)
    }
}
