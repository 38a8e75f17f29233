// The normal form of a sheet's rows: each value line is taken into a basis, and the basis is written as a sheet.
ghost use Rattle.std.specs.Prelude.{◌≡◌, ◌+◌, ◌<◌, ◌≤◌, ◌⊎◌, map, reverse, length, MatchResult};
ghost use Rattle.basis.specs.Form.{Rows};
ghost use Rattle.sheet.specs.Faults.{FaultOf};
ghost use Rattle.sheet.specs.Opened.{NoSheet, rows_of};
ghost use Rattle.jobs.specs.Normal.{digits_of, Normalized, NoRoom};
ghost use Rattle.jobs.specs.Runs.{placed, TakenIn};

use basis::Basis;
use coding::{Coding, Refusal, Ternary};
use codings::Planes;
use sheet::{Fault, Layer, Opened, open, write};

// Writes the normal form of the sheet's rows into the output as a sheet, and gives its length. A refusal leaves the
// output as it was: a text that is no sheet gets the fault of `open`, and on a sheet only room can be lacking.
pub fn normal(text: &[u8], output: &mut [u8]) -> Result<usize, Fault>
    ensures { MatchResult result
        (λ size. Normalized text.now output.old output.new size)
        (λ f. (output.new ≡ output.old)
        × ((FaultOf text.now f × NoSheet text.now) ⊎ NoRoom text.now output.old f)) }
{
    let sheet = open(text)?;
    let mut rows = [Planes::zero(); 64];
    let rank = form(&sheet, &mut rows)?;
    at_end(write(sheet.head(), &rows[..rank], output), text.len())
}

// Takes the value lines in, in their order, in rows that are lent, and gives the rank. No line of an opened sheet is
// refused where the coding and the rows have a place for each name. That is no field of any type: it is between a sheet and
// a coding.
fn form<C: Ternary>(sheet: &Opened, rows: &mut [C]) -> Result<usize, Fault>
    ensures { sheet.now.names ≤ C.Coding.width → sheet.now.names ≤ length rows.old
        → MatchResult result
        (λ rank. Rows C.Coding sheet.now.names rank rows.new (reverse (map (digits_of C.Coding.field) (rows_of sheet.now))))
        (λ _. ⊥) }
{
    let mut basis = Basis::make(rows, sheet.names());
    for number in 0..sheet.lines() {
        take_line(&mut basis, sheet, number)?;
    }
    at_end(basis.rank(), sheet.end())
}

// Takes one value line in.
fn take_line<C: Ternary>(
    basis: &mut Basis<'_, C>,
    sheet: &Opened,
    number: usize,
) -> Result<(), Fault>
    ensures taken { sheet.now.names ≤ C.Coding.width → number < sheet.now.lines
        → TakenIn C.Coding basis.old sheet.now number
        → MatchResult result
        (λ _. TakenIn C.Coding basis.new sheet.now (number + 1))
        (λ _. ⊥) }
    ensures lent { basis.new.rows.ghost_name ≡ basis.old.rows.ghost_name }
{
    let vector: C = sheet.line(number)?;
    at_end(basis.take_in(vector), sheet.end())?;
    Ok(())
}

// A refusal that no byte of the text is to blame for is placed at its end.
pub(crate) fn at_end<T>(res: Result<T, Refusal>, end: usize) -> Result<T, Fault>
    ensures { result ≡ placed end res }
{
    res.map_err(|refusal| Layer::Job.fault(refusal, end))
}
