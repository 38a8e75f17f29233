// The plane coding: two words, 64 places.
ghost use Rattle.std.specs.Prelude.{◌≡◌, ℕ, ◌<◌};
ghost use Rattle.algebra.specs.Modulo.{f3};
ghost use Rattle.codings.specs.TwoPlanes.{digits, Full, spelled1, spelled2};
ghost use Rattle.codings.specs.Plane.{meant_by, Canonical};
ghost use Rattle.codings.specs.TwoPlanesLemmas.{digits_out};
ghost use Rattle.std.proofs.Common.{rules};

use crate::digits;
use crate::digits::check_digit;
use crate::full::FullPlanes;
use coding::{Coding, Lead, Refusal, Ternary, check_length, check_place};

// Bits (V1, V2) at a place: (1,1) is 0, (0,1) is 1, (1,0) is 2. Vectors lie in callers' rows, so any two words may be
// stored: V2 is `second` as it stands, and V1 is `first` with a bit set wherever V2 has none. Answers store V1 and V2.
#[derive(Clone, Copy, Debug)]
pub struct Planes {
    pub first: u64,
    pub second: u64,
}

impl Planes {
    // V1 and V2, the planes as they are read: the words that every answer with these digits stores.
    pub fn read(self) -> (u64, u64)
        ensures digits { (k : ℕ) → digits 64 result.0 result.1 k ≡ meant_by self k }
        ensures full { Full 64 result.0 result.1 }
        ensures words { (result.0 ≡ spelled1 64 (meant_by self)) × (result.1 ≡ spelled2 64 (meant_by self)) }
    {
        (self.first | !self.second, self.second)
    }

    // The same with the fact that no place is empty.
    fn full(self) -> FullPlanes
        ensures { (k : ℕ) → digits 64 result.v1 result.v2 k ≡ meant_by self k }
    {
        let (v1, v2) = self.read();
        FullPlanes { v1, v2 }
    }
}

impl FullPlanes {
    // The answer that stores these planes.
    fn stored(self) -> Planes
        ensures digits { (k : ℕ) → meant_by result k ≡ digits 64 self.v1 self.v2 k }
        ensures stored { Canonical result }
    {
        Planes {
            first: self.v1,
            second: self.v2,
        }
    }
}

impl Coding for Planes {
    ghost field = { f3 };

    ghost width = { 64 };

    ghost meant = { meant_by };

    ghost canonical = { Canonical };

    ghost some = { Prim.search rules };

    ghost wide = { Prim.search rules };

    ghost beyond = { λ x. digits_out 64 x.first x.second };

    fn width() -> usize {
        64
    }

    fn zero() -> Planes {
        FullPlanes {
            v1: u64::MAX,
            v2: u64::MAX,
        }
        .stored()
    }

    // The place is tested here and not by `check_place`: a loop over the digits, as in `is_long`, becomes a test of whole words.
    fn digit(self, place: usize) -> Result<u8, Refusal> {
        if place >= 64 {
            return Err(Refusal::NumberOutOfRange);
        }
        if !words::holds(self.second, place) {
            Ok(2)
        } else if words::holds(self.first, place) {
            Ok(0)
        } else {
            Ok(1)
        }
    }

    fn change(self, place: usize, digit: u8) -> Result<Planes, Refusal> {
        check_place(place, 64)?;
        check_digit(digit)?;
        let v = self.full();
        let changed = FullPlanes {
            v1: words::put(v.v1, place, digit != 1),
            v2: words::put(v.v2, place, digit != 2),
        };
        Ok(changed.stored())
    }

    fn negation(self) -> Planes {
        self.full().negation().stored()
    }

    fn sum(self, other: Planes) -> Planes {
        self.full().sum(other.full()).stored()
    }

    fn difference(self, other: Planes) -> Planes {
        self.full().sum(other.full().negation()).stored()
    }

    fn product(self, other: Planes) -> Planes {
        self.full().product(other.full()).stored()
    }

    // Two times a digit is its negation.
    fn scaled(self, digit: u8) -> Result<Planes, Refusal> {
        match digit {
            0 => Ok(Planes::zero()),
            1 => Ok(self.full().stored()),
            2 => Ok(self.negation()),
            _ => Err(Refusal::DigitTooLarge),
        }
    }

    fn inverse(digit: u8) -> Result<u8, Refusal> {
        digits::inverse(digit)
    }

    fn sum_and_difference(self, other: Planes) -> (Planes, Planes) {
        let (sum, difference) = self.full().sum_and_difference(other.full());
        (sum.stored(), difference.stored())
    }

    fn weight(self) -> usize {
        let v = self.full();
        words::count(v.v1 ^ v.v2)
    }

    fn distance(self, other: Planes) -> usize {
        let v = self.full();
        let w = other.full();
        words::count((v.v1 ^ w.v1) | (v.v2 ^ w.v2))
    }

    // A 1 is counted among the non-zero digits, and a 2 there and among the twos. This, the lead, the successor and the full
    // product are formulas on the coding's own words; what they have in common with the sign coding is a line each.
    fn dot(self, other: Planes) -> u8 {
        let p = self.full().product(other.full());
        let nonzero = words::count(p.v1 ^ p.v2);
        let twos = words::count(!p.v2);
        ((nonzero + twos) % 3) as u8
    }

    fn lead(self) -> Option<Lead> {
        let v = self.full();
        let some = v.v1 ^ v.v2;
        if some == 0 {
            return None;
        }
        let place = some.trailing_zeros() as usize;
        let digit = if words::holds(v.v2, place) { 1 } else { 2 };
        Some(Lead { place, digit })
    }
}

impl Ternary for Planes {
    ghost three = { Prim.search rules };

    // Taking one from V2 clears its lowest bit, at the lowest place without a 2, and sets those below it.
    fn next(self, n: usize) -> Result<Option<Planes>, Refusal> {
        check_length(n, 64)?;
        let v = self.full();
        let low = words::below(n);
        if (v.v1 ^ v.v2) & !low != 0 {
            return Err(Refusal::BeyondLength);
        }
        if v.v2 & low == 0 {
            return Ok(None);
        }
        let next = FullPlanes {
            v1: (v.v2 - 1) | !v.v1,
            v2: v.v1,
        };
        Ok(Some(next.stored()))
    }

    fn full_product(self, n: usize) -> Result<u8, Refusal> {
        check_length(n, 64)?;
        let v = self.full();
        let low = words::below(n);
        if !(v.v1 ^ v.v2) & low != 0 {
            return Ok(0);
        }
        let twos = words::count(!v.v2 & low);
        Ok(1 + (twos % 2) as u8)
    }
}
