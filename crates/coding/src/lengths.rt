// Which lengths and places there are, digits at places beyond the width, and whether vectors have a length.
ghost use Rattle.std.specs.Prelude.{◌≡◌, ℕ, ◌<◌, ◌≤◌, length, Decides, MatchBool, MatchResult};
ghost use Rattle.std.specs.List.{AllByRecursion, HoldsAt};
ghost use Rattle.algebra.specs.Field.{value};
ghost use Rattle.algebra.specs.Vector.{Long};
ghost use Rattle.coding.specs.Lengths.{InRange, OutOfRange};
ghost use Rattle.coding.specs.Refusals.{number_of};

use crate::refusals::Refusal;
use crate::vectors::Coding;

// Whether a length is some, and within a width.
pub fn check_length(n: usize, width: usize) -> Result<(), Refusal>
    ensures { MatchResult result (λ _. InRange width n) (λ e. (number_of e ≡ 6) × OutOfRange width n) }
{
    if n == 0 || n > width {
        return Err(Refusal::LengthOutOfRange);
    }
    Ok(())
}

// Whether a place lies within a width.
pub fn check_place(place: usize, width: usize) -> Result<(), Refusal>
    ensures { MatchResult result (λ _. place < width) (λ e. (number_of e ≡ 9) × (width ≤ place)) }
{
    if place >= width {
        return Err(Refusal::NumberOutOfRange);
    }
    Ok(())
}

// Whether there is room for as many as are needed.
pub fn check_room(needed: usize, room: usize) -> Result<(), Refusal>
    ensures { MatchResult result (λ _. needed ≤ room) (λ e. (number_of e ≡ 8) × (room < needed)) }
{
    if room < needed {
        return Err(Refusal::TooLittleRoom);
    }
    Ok(())
}

// The digit at a place: 0 from the width on, as every vector has there.
pub fn digit_at<C: Coding>(vector: C, place: usize) -> u8
    ensures { result ≡ value (C.Coding.meant vector place) }
{
    vector.digit(place).unwrap_or(0)
}

// Whether every digit from place n on is 0.
pub fn is_long<C: Coding>(vector: C, n: usize) -> bool
    ensures { Decides result (Long C.Coding.field n (C.Coding.meant vector)) }
{
    for k in n..C::width() {
        if digit_at(vector, k) != 0 {
            return false;
        }
    }
    true
}

// Whether a vector has a length.
pub fn check_long<C: Coding>(vector: C, n: usize) -> Result<(), Refusal>
    ensures { MatchResult result
        (λ _. Long C.Coding.field n (C.Coding.meant vector))
        (λ e. (number_of e ≡ 11) × (Long C.Coding.field n (C.Coding.meant vector) → ⊥)) }
{
    if !is_long(vector, n) {
        return Err(Refusal::BeyondLength);
    }
    Ok(())
}

// Whether every vector of a list has a length.
pub fn all_long<C: Coding>(vectors: &[C], n: usize) -> bool
    ensures { MatchBool result
        (AllByRecursion (λ x. Long C.Coding.field n (C.Coding.meant x)) vectors.now)
        ((i : ℕ) × (i < length vectors.now) × HoldsAt (λ x. Long C.Coding.field n (C.Coding.meant x) → ⊥) vectors.now i) }
{
    for vector in vectors {
        if !is_long(*vector, n) {
            return false;
        }
    }
    true
}
