// The two traits: what a coding of any small field offers, and what the ternary ones add.
ghost use Rattle.std.specs.Prelude.{◌≡◌, ℕ, ◌<◌, ◌≤◌, ◌⊎◌, MatchOption, MatchResult};
ghost use Rattle.algebra.specs.Field.{Field, Digit, value, of, minus};
ghost use Rattle.algebra.specs.Modulo.{f3};
ghost use Rattle.algebra.specs.Vector.{Long, changed, weight, distance, dot, product, Leads};
ghost use Rattle.algebra.specs.Successor.{Next, Last};
ghost use Rattle.coding.specs.Refusals.{number_of};
ghost use Rattle.coding.specs.Lengths.{InRange, OutOfRange};

use crate::refusals::Refusal;

// The lowest place with a non-zero digit, and that digit.
#[derive(Clone, Copy, PartialEq, Eq, Debug)]
pub struct Lead {
    pub place: usize,
    pub digit: u8,
}

// A stored vector, known by its meaning alone: a digit at every place.
// What is promised of an answer depends on the meant digits only, and every vector answer is canonical.
pub trait Coding: Copy {
    // Whose digits these are.
    ghost field: { Field };

    // How many places a vector has.
    ghost width: { ℕ };

    // The digit at a place.
    ghost meant: { Self → ℕ → Digit field.size };

    // Stored as an answer stores it.
    ghost canonical: { Self → Type 0 };

    fn width() -> usize
        ensures { result ≡ width };

    fn zero() -> Self
        ensures digits { (k : ℕ) → meant result k ≡ field.nil }
        ensures stored { canonical result };

    // The digit at a place; refused from the width on.
    fn digit(self, place: usize) -> Result<u8, Refusal>
        ensures { MatchResult result
            (λ d. (place < width) × (d ≡ value (meant self place)))
            (λ e. (number_of e ≡ 9) × (width ≤ place)) };

    // The vector with one digit replaced. The place is checked before the digit.
    fn change(self, place: usize, digit: u8) -> Result<Self, Refusal>
        ensures { MatchResult result
            (λ x. (place < width) × (digit < field.size) × ((k : ℕ) → meant x k ≡ changed field (meant self) place (of field digit) k) × canonical x)
            (λ e. ((number_of e ≡ 9) × (width ≤ place)) ⊎ ((number_of e ≡ 10) × (place < width) × (field.size ≤ digit))) };

    fn negation(self) -> Self
        ensures digits { (k : ℕ) → meant result k ≡ field.neg (meant self k) }
        ensures stored { canonical result };

    fn sum(self, other: Self) -> Self
        ensures digits { (k : ℕ) → meant result k ≡ field.add (meant self k) (meant other k) }
        ensures stored { canonical result };

    fn difference(self, other: Self) -> Self
        ensures digits { (k : ℕ) → meant result k ≡ minus field (meant self k) (meant other k) }
        ensures stored { canonical result };

    // Digit times digit, place by place.
    fn product(self, other: Self) -> Self
        ensures digits { (k : ℕ) → meant result k ≡ field.mul (meant self k) (meant other k) }
        ensures stored { canonical result };

    // Each digit times one digit; refused from the field's size on.
    fn scaled(self, digit: u8) -> Result<Self, Refusal>
        ensures { MatchResult result
            (λ x. (digit < field.size) × ((k : ℕ) → meant x k ≡ field.mul (of field digit) (meant self k)) × canonical x)
            (λ e. (number_of e ≡ 10) × (field.size ≤ digit)) };

    // The field's inverse of a digit, modulo 3 a 0 for 0; refused from the field's size on.
    fn inverse(digit: u8) -> Result<u8, Refusal>
        ensures { MatchResult result
            (λ i. (digit < field.size) × (i ≡ value (field.inv (of field digit))))
            (λ e. (number_of e ≡ 10) × (field.size ≤ digit)) };

    // The sum and the difference of one pair, in one answer.
    fn sum_and_difference(self, other: Self) -> (Self, Self)
        ensures sums { (k : ℕ) → meant result.0 k ≡ field.add (meant self k) (meant other k) }
        ensures differences { (k : ℕ) → meant result.1 k ≡ minus field (meant self k) (meant other k) }
        ensures stored { canonical result.0 × canonical result.1 };

    // How many digits are not 0.
    fn weight(self) -> usize
        ensures { result ≡ weight field width (meant self) };

    // At how many places two vectors differ.
    fn distance(self, other: Self) -> usize
        ensures { result ≡ distance field width (meant self) (meant other) };

    // The sum of the products at all places.
    fn dot(self, other: Self) -> u8
        ensures { result ≡ value (dot field width (meant self) (meant other)) };

    // The lowest place with a non-zero digit; absent for zero.
    fn lead(self) -> Option<Lead>
        ensures { MatchOption result ((k : ℕ) → meant self k ≡ field.nil) (λ l. Leads field (meant self) l.place l.digit) };

    ghost some: { 0 < width };

    ghost wide: { width ≤ 4096 };

    ghost beyond: { (x : Self) (k : ℕ) → width ≤ k → meant x k ≡ field.nil };
}

// What only the digits modulo 3 have.
pub trait Ternary: Coding {
    // The successor within n places, absent after the last. The length is checked before the digits from n on.
    fn next(self, n: usize) -> Result<Option<Self>, Refusal>
        ensures { MatchResult result
            (λ o. InRange Self.Coding.width n × Long Self.Coding.field n (Self.Coding.meant self)
            × MatchOption o (Last Self.Coding.field n (Self.Coding.meant self))
            (λ x. ((d : ℕ) × Next Self.Coding.field n (Self.Coding.meant self) d (Self.Coding.meant x)) × Self.Coding.canonical x))
            (λ e. ((number_of e ≡ 6) × OutOfRange Self.Coding.width n)
            ⊎ ((number_of e ≡ 11) × InRange Self.Coding.width n × (Long Self.Coding.field n (Self.Coding.meant self) → ⊥))) };

    // The product of the digits at places 0 to n - 1, whatever stands above.
    fn full_product(self, n: usize) -> Result<u8, Refusal>
        ensures { MatchResult result
            (λ d. InRange Self.Coding.width n × (d ≡ value (product Self.Coding.field n (Self.Coding.meant self))))
            (λ e. (number_of e ≡ 6) × OutOfRange Self.Coding.width n) };

    ghost three: { Self.Coding.field ≡ f3 };
}
