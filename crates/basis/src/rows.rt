// Rows in normal form, in a slice: what they leave of a vector, and one vector more among them.
ghost use Rattle.std.specs.Prelude.{◌≡◌, ℕ, ◌-◌, ◌<◌, ◌≤◌, List, map, length, take, Decides, slice_index_or};
ghost use Rattle.std.specs.List.{insert, All};
ghost use Rattle.algebra.specs.Field.{of};
ghost use Rattle.algebra.specs.Vector.{Vector, Long};
ghost use Rattle.algebra.specs.Space.{times, less};
ghost use Rattle.algebra.specs.NormalForm.{reduced};
ghost use Rattle.basis.specs.Form.{Form, lead_of, meant_rows};
ghost use Rattle.basis.specs.Inserted.{Moved, After};

use crate::taken::Taken;
use coding::{Coding, Refusal, digit_at};

// The place of a row's lead, or the width where the row is zero.
pub(crate) fn lead_place<C: Coding>(row: C) -> usize
    ensures { result ≡ lead_of C.Coding row }
{
    // `map_or` with a closure would move the two cases into a lemma.
    match row.lead() {
        Some(lead) => lead.place,
        None => C::width(),
    }
}

pub(crate) fn is_zero<C: Coding>(vector: C) -> bool
    ensures { Decides result ((k : ℕ) → C.Coding.meant vector k ≡ C.Coding.field.nil) }
{
    vector.lead().is_none()
}

// A vector times a digit. Every digit that code reads is below the field's size, so no multiple is refused.
pub(crate) fn multiple<C: Coding>(vector: C, digit: u8) -> C
    ensures digits { digit < C.Coding.field.size → (k : ℕ) → C.Coding.meant result k ≡ C.Coding.field.mul (of C.Coding.field digit) (C.Coding.meant vector k) }
    ensures stored { C.Coding.canonical result }
{
    vector.scaled(digit).unwrap_or(C::zero())
}

// A vector scaled so that a digit of it becomes 1.
fn monic<C: Coding>(vector: C, digit: u8) -> C
    ensures digits { digit < C.Coding.field.size → (k : ℕ) → C.Coding.meant result k ≡ C.Coding.field.mul (C.Coding.field.inv (of C.Coding.field digit)) (C.Coding.meant vector k) }
    ensures stored { C.Coding.canonical result }
{
    multiple(vector, C::inverse(digit).unwrap_or(0))
}

// A vector less the multiple of a row that its digit at a place says. Where the row holds 1 there, that leaves 0.
fn cleared<C: Coding>(vector: C, place: usize, row: C) -> C
    ensures digits { (k : ℕ) → C.Coding.meant result k ≡ less C.Coding.field (C.Coding.meant vector) (times C.Coding.field (C.Coding.meant vector place) (C.Coding.meant row)) k }
    ensures stored { C.Coding.canonical result }
{
    vector.difference(multiple(row, digit_at(vector, place)))
}

// What is left of a vector when each row has cleared its lead, stored as an answer is.
pub(crate) fn left_over<C: Coding>(rows: &[C], vector: C) -> C
    ensures digits { C.Coding.meant result ≡ reduced C.Coding.field (meant_rows C.Coding rows.now) (C.Coding.meant vector) }
    ensures stored { C.Coding.canonical result }
{
    let mut left = C::zero().sum(vector);
    for row in rows {
        left = cleared(left, lead_place(*row), *row);
    }
    left
}

// How many rows have their leads below a place, before the first that has not.
fn rows_before<C: Coding>(rows: &[C], place: usize) -> usize
    ensures within { result ≤ length rows.now }
    ensures before { (i : ℕ) (d : C) → i < result → lead_of C.Coding (slice_index_or rows.now i d) < place }
    ensures after { (d : C) → result < length rows.now → place ≤ lead_of C.Coding (slice_index_or rows.now result d) }
{
    rows.iter()
        .position(|row| lead_place(*row) >= place)
        .unwrap_or(rows.len())
}

// Clears a place in every row by a row that holds 1 there.
fn clear_place<C: Coding>(rows: &mut [C], place: usize, by: C)
    ensures cleared { map C.Coding.meant rows.new ≡ map (λ x. less C.Coding.field (C.Coding.meant x) (times C.Coding.field (C.Coding.meant x place) (C.Coding.meant by))) rows.old }
    ensures stored { All C.Coding.canonical rows.new }
{
    for row in rows.iter_mut() {
        *row = cleared(*row, place, by);
    }
}

// Puts a row in at a place; the last row is lost.
fn put_at<C: Coding>(rows: &mut [C], at: usize, row: C)
    requires { at < length rows.old }
    ensures { rows.new ≡ insert (take (length rows.old - 1) rows.old) at row }
{
    rows[at..].rotate_right(1);
    rows[at] = row;
}

// One vector more among the first rows, in place, if there is room for one row more. The rank stays beside the rows,
// since the row after the first `rank` may be written.
pub(crate) fn insert<C: Coding>(rows: &mut [C], rank: usize, vector: C) -> Result<Taken, Refusal>
    requires { rank ≤ length rows.old }
    ensures stands { (n : ℕ) (vs : List (Vector C.Coding.field)) → Long C.Coding.field n (C.Coding.meant vector) → Form C.Coding n rank rows.old vs → After C.Coding n rank rows.new vs (C.Coding.meant vector) result }
    ensures moved { Moved rank rows.old rows.new result }
{
    let left = left_over(&rows[..rank], vector);
    let Some(lead) = left.lead() else {
        return Ok(Taken::Known);
    };
    if rank == rows.len() {
        return Err(Refusal::TooLittleRoom);
    }
    let row = monic(left, lead.digit);
    let at = rows_before(&rows[..rank], lead.place);
    clear_place(&mut rows[..rank], lead.place, row);
    put_at(&mut rows[..=rank], at, row);
    Ok(Taken::Grown)
}
