// The normal form of the dual: one vector for each place that is no lead, taken in one after another.
ghost use Rattle.std.specs.Prelude.{◌≡◌, ℕ, ◌+◌, ◌<◌, ◌≤◌, List, length, Decides};
ghost use Rattle.algebra.specs.Vector.{Vector};
ghost use Rattle.algebra.specs.Space.{Each};
ghost use Rattle.algebra.specs.NormalForm.{NormalForm};
ghost use Rattle.algebra.specs.Dual.{unit, Free, dual_at};
ghost use Rattle.basis.specs.Form.{meant_rows};
ghost use Rattle.basis.specs.Answers.{WroteDual};

use crate::rows::{insert, lead_place, multiple};
use crate::taken::Taken;
use coding::{Coding, digit_at};

// The vector with 1 at a place and 0 at all others.
fn unit<C: Coding>(place: usize) -> C
    ensures digits { place < C.Coding.width → (k : ℕ) → C.Coding.meant result k ≡ unit C.Coding.field place k }
    ensures stored { C.Coding.canonical result }
{
    C::zero().change(place, 1).unwrap_or(C::zero())
}

// Whether a place is no row's lead.
fn is_free<C: Coding>(rows: &[C], place: usize) -> bool
    ensures { Decides result (Free C.Coding.field (meant_rows C.Coding rows.now) place) }
{
    for row in rows {
        if lead_place(*row) == place {
            return false;
        }
    }
    true
}

// The vector of the dual with 1 at a free place and 0 at the other free places.
fn dual_vector<C: Coding>(rows: &[C], place: usize) -> C
    ensures digits { place < C.Coding.width → Each (λ s. s.lead < C.Coding.width) (meant_rows C.Coding rows.now)
        → C.Coding.meant result ≡ dual_at C.Coding.field (meant_rows C.Coding rows.now) place }
    ensures stored { C.Coding.canonical result }
{
    let mut vector: C = unit(place);
    for row in rows {
        let at_lead: C = unit(lead_place(*row));
        vector = vector.difference(multiple(at_lead, digit_at(*row, place)));
    }
    vector
}

// Writes the normal form of the dual of rows in normal form, and gives the number of its rows.
pub(crate) fn write_dual<C: Coding>(rows: &[C], n: usize, output: &mut [C]) -> usize
    ensures { (vs : List (Vector C.Coding.field)) → n ≤ C.Coding.width → NormalForm C.Coding.field n (meant_rows C.Coding rows.now) vs
        → n ≤ length output.old + length rows.now
        → WroteDual C.Coding n (length rows.now) vs output.old output.new result }
{
    // Counted by hand: only a vector that is new counts, and the number is the answer.
    let mut count = 0;
    for place in 0..n {
        if is_free(rows, place) {
            if let Ok(Taken::Grown) = insert(output, count, dual_vector(rows, place)) {
                count += 1;
            }
        }
    }
    count
}
