// The permanent of a sheet's matrix modulo 3: the value lines are the rows, and every share of a tally is worked.
ghost use Rattle.std.specs.Prelude.{◌≡◌, ◌%◌, ◌<◌, ◌≤◌, ◌⊎◌, map, length, MatchResult};
ghost use Rattle.std.specs.List.{range_with_len};
ghost use Rattle.algebra.specs.Permanent.{permanent};
ghost use Rattle.tally.specs.Matrix.{matrix};
ghost use Rattle.tally.specs.Makings.{Makes};
ghost use Rattle.tally.specs.declared.calls.Call.TheVariants.{Work};
ghost use Rattle.sheet.specs.Faults.{FaultOf};
ghost use Rattle.sheet.specs.Opened.{NoSheet, rows_of};
ghost use Rattle.jobs.specs.Permanents.{PermanentOf, NoPermanent, LinesRead};

use crate::normals::at_end;
use crate::sizes::Permanent;
use coding::{Coding, Refusal, Ternary};
use codings::Planes;
use sheet::{Fault, Layer, Opened, open};
use std::array::from_fn;
use tally::{Call, MOST_ROWS, Unwatched, result_after};

// The size of the sheet's matrix and its permanent modulo 3. A text that is no sheet gets the fault of `open`; a sheet
// is refused only if it is not square, or else has more than 60 names.
pub fn permanent(text: &[u8]) -> Result<Permanent, Fault>
    ensures { MatchResult result
        (λ p. PermanentOf text.now p)
        (λ f. (FaultOf text.now f × NoSheet text.now) ⊎ NoPermanent text.now f) }
{
    let sheet = open(text)?;
    let size = sheet.names();
    let lines = sheet.lines();
    if lines != size {
        return Err(Layer::Job.fault(Refusal::NotSquare, text.len()));
    }
    if size > MOST_ROWS {
        return Err(Layer::Job.fault(Refusal::LengthOutOfRange, text.len()));
    }
    // The row after the matrix is the tally's.
    let mut rows = [Planes::zero(); 61];
    read_lines(&sheet, &mut rows)?;
    let digit = at_end(work_all(&mut rows, size), text.len())?;
    Ok(Permanent { size, digit })
}

// Reads the value lines into the first rows, in their order. No line is refused where the coding has a place for each
// name.
fn read_lines<C: Ternary>(sheet: &Opened, rows: &mut [C]) -> Result<(), Fault>
    requires { sheet.now.lines ≤ length rows.old }
    ensures { sheet.now.names ≤ C.Coding.width
        → MatchResult result
        (λ _. LinesRead C.Coding rows.new (rows_of sheet.now) sheet.now.lines)
        (λ _. ⊥) }
{
    // By index: of what `iter_mut().enumerate()` hands out to be written, nothing is known afterwards.
    for number in 0..sheet.lines() {
        rows[number] = sheet.line(number)?;
    }
    Ok(())
}

// A call to work each share that a tally can have.
fn all_shares() -> [Call; 64]
    ensures { result ≡ map Work (range_with_len 0 64) }
{
    from_fn(|share| Call::Work(share as u8))
}

// As many splits as a tally of this size can have.
fn most_splits(size: usize) -> usize
    ensures { (result ≤ 6) × (result ≤ size) }
{
    size.min(6)
}

// The permanent, modulo 3, of the matrix in the first rows. A small matrix has fewer shares than there are calls; the
// others are refused.
fn work_all<C: Ternary>(rows: &mut [C], size: usize) -> Result<u8, Refusal>
    ensures { Makes C.Coding size 0 rows.old
        → MatchResult result
        (λ d. d ≡ permanent (matrix C.Coding rows.old) size % 3)
        (λ _. ⊥) }
{
    let calls = all_shares();
    result_after(rows, size, most_splits(size), &calls, &mut Unwatched)
}
