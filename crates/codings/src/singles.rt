// The single coding: one word, 32 places.
ghost use Rattle.std.specs.Prelude.{◌≡◌, ℕ};
ghost use Rattle.algebra.specs.Modulo.{f3};
ghost use Rattle.algebra.specs.Vector.{Long};
ghost use Rattle.codings.specs.Halves.{upper, lower, Halves};
ghost use Rattle.codings.specs.Plane.{meant_by as meant_by_planes};
ghost use Rattle.codings.specs.Single.{in_halves, FullHalves, spelled_word, meant_by, Canonical};
ghost use Rattle.codings.specs.TwoPlanesLemmas.{digits_out};
ghost use Rattle.std.proofs.Common.{rules};

use crate::digits;
use crate::full::FullWord;
use crate::planes::Planes;
use coding::{Coding, Lead, Refusal, Ternary, check_length, check_place};

// The lower half of a word.
const LOW: u64 = 0xFFFF_FFFF;

// V1 is the upper half of the word and V2 the lower, with the digits of the plane coding. Vectors lie in callers' rows,
// so any word may be stored: V2 is the lower half as it stands, and V1 is the upper half with a bit set wherever V2 has
// none. Answers store V1 and V2.
#[derive(Clone, Copy, Debug)]
pub struct Single {
    pub word: u64,
}

impl Single {
    // V1 and V2 in their halves, as they are read: the word that every answer with these digits stores.
    pub fn read(self) -> u64
        ensures digits { (k : ℕ) → in_halves result k ≡ meant_by self k }
        ensures full { FullHalves result }
        ensures word { result ≡ spelled_word (meant_by self) }
    {
        self.word | (!self.word << 32)
    }

    // The same with the fact that no place is empty.
    fn full(self) -> FullWord
        ensures { (k : ℕ) → in_halves result.word k ≡ meant_by self k }
    {
        FullWord { word: self.read() }
    }
}

// The same digits in two planes. Both planes are set from place 32 on, so the digits there are 0.
impl From<Single> for Planes {
    ghost from_gives = { λ x p. (k : ℕ) → meant_by_planes p k ≡ meant_by x k };

    fn from(vector: Single) -> Planes {
        Planes {
            first: (vector.word >> 32) | !LOW,
            second: vector.word | !LOW,
        }
    }
}

// The word with its halves swapped.
fn swapped(word: u64) -> u64
    ensures { Halves result (lower word) (upper word) }
{
    word.rotate_left(32)
}

// The lower halves of two words, side by side.
fn paired(first: u64, second: u64) -> u64
    ensures { Halves result (lower first) (lower second) }
{
    (first << 32) | (second & LOW)
}

impl FullWord {
    // The answer that stores this word.
    fn stored(self) -> Single
        ensures digits { (k : ℕ) → meant_by result k ≡ in_halves self.word k }
        ensures stored { Canonical result }
    {
        Single { word: self.word }
    }

    // The negated vector has its halves swapped.
    fn negation(self) -> FullWord
        ensures { (k : ℕ) → in_halves result.word k ≡ f3.neg (in_halves self.word k) }
    {
        FullWord {
            word: swapped(self.word),
        }
    }

    // In three word operations and two swaps.
    fn sum(self, other: FullWord) -> FullWord
        ensures { (k : ℕ) → in_halves result.word k ≡ f3.add (in_halves self.word k) (in_halves other.word k) }
    {
        let t = self.word ^ other.word;
        let u = t ^ swapped(self.word);
        FullWord {
            word: swapped(t) | u,
        }
    }
}

// The answer with the digits of two planes, if they hold none from place 32 on. It is no `TryFrom`, whose refusal would
// never come, and no `From`, since not all planes have such an answer.
fn narrow(planes: Planes) -> Single
    ensures digits { Long f3 32 (meant_by_planes planes) → (k : ℕ) → meant_by result k ≡ meant_by_planes planes k }
    ensures stored { Canonical result }
{
    let (v1, v2) = planes.read();
    let cut = FullWord {
        word: paired(v1, v2),
    };
    cut.stored()
}

// What works on both halves at once is done on the word; the rest is the plane coding's, on the widened vector.
impl Coding for Single {
    ghost field = { f3 };

    ghost width = { 32 };

    ghost meant = { meant_by };

    ghost canonical = { Canonical };

    ghost some = { Prim.search rules };

    ghost wide = { Prim.search rules };

    ghost beyond = { λ x. digits_out 32 (upper x.word) (lower x.word) };

    fn width() -> usize {
        32
    }

    fn zero() -> Single {
        FullWord { word: u64::MAX }.stored()
    }

    fn digit(self, place: usize) -> Result<u8, Refusal> {
        check_place(place, 32)?;
        Planes::from(self).digit(place)
    }

    fn change(self, place: usize, digit: u8) -> Result<Single, Refusal> {
        check_place(place, 32)?;
        Ok(narrow(Planes::from(self).change(place, digit)?))
    }

    fn negation(self) -> Single {
        self.full().negation().stored()
    }

    fn sum(self, other: Single) -> Single {
        self.full().sum(other.full()).stored()
    }

    fn difference(self, other: Single) -> Single {
        self.full().sum(other.full().negation()).stored()
    }

    // Where v has a 1 this is w, where v has a 2 it is w negated, and elsewhere all bits are set.
    fn product(self, other: Single) -> Single {
        let v = self.full().word;
        let w = other.full().word;
        let v1 = swapped(v);
        let product = FullWord {
            word: (paired(v1, v1) | w) & (paired(v, v) | swapped(w)),
        };
        product.stored()
    }

    fn scaled(self, digit: u8) -> Result<Single, Refusal> {
        Ok(narrow(Planes::from(self).scaled(digit)?))
    }

    fn inverse(digit: u8) -> Result<u8, Refusal> {
        digits::inverse(digit)
    }

    // Both from six word operations and three swaps.
    fn sum_and_difference(self, other: Single) -> (Single, Single) {
        let v = self.full().word;
        let w = other.full().word;
        let t = (v ^ swapped(v)) ^ w;
        let u = (w ^ swapped(w)) ^ v;
        let sum = FullWord { word: t | u };
        let difference = FullWord {
            word: swapped(t) | u,
        };
        (sum.stored(), difference.stored())
    }

    fn weight(self) -> usize {
        Planes::from(self).weight()
    }

    fn distance(self, other: Single) -> usize {
        Planes::from(self).distance(Planes::from(other))
    }

    fn dot(self, other: Single) -> u8 {
        Planes::from(self).dot(Planes::from(other))
    }

    fn lead(self) -> Option<Lead> {
        Planes::from(self).lead()
    }
}

impl Ternary for Single {
    ghost three = { Prim.search rules };

    // The successor within n places has length n, so it fits.
    fn next(self, n: usize) -> Result<Option<Single>, Refusal> {
        check_length(n, 32)?;
        // `map(narrow)` says what `narrow` answered only under a name that no proof can write.
        match Planes::from(self).next(n)? {
            Some(next) => Ok(Some(narrow(next))),
            None => Ok(None),
        }
    }

    fn full_product(self, n: usize) -> Result<u8, Refusal> {
        check_length(n, 32)?;
        Planes::from(self).full_product(n)
    }
}
