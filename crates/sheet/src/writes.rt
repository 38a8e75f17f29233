// The writer: a names line and rows, put into the caller's bytes as a sheet.
ghost use Rattle.std.specs.Prelude.{◌≡◌, ◌+◌, ◌*◌, ◌<◌, ◌≤◌, length, MatchOption, MatchResult};
ghost use Rattle.coding.specs.Refusals.{number_of};
ghost use Rattle.sheet.specs.Format.{values};
ghost use Rattle.sheet.specs.Writes.{digits, Wrote, Refused};

use crate::sheets::count_names;
use crate::texts::LONGEST;
use coding::{Refusal, Ternary, all_long, check_room, digit_at};

// How many bytes a sheet has; absent where they are too many. The product may be too large for a usize.
fn sheet_size(head: usize, rows: usize, names: usize) -> Option<usize>
    requires { names ≤ 64 }
    ensures { MatchOption result (65000 < head + rows * (2 * names)) (λ m. (m ≡ head + rows * (2 * names)) × (m ≤ 65000)) }
{
    let values = rows.checked_mul(2 * names)?;
    let size = head.checked_add(values)?;
    (size <= LONGEST).then_some(size)
}

// Writes the value line of a row: each digit with a blank after it, and a line feed over the last blank.
fn write_row<C: Ternary>(row: C, names: usize, output: &mut [u8])
    requires some { 0 < names }
    requires room { length output.old ≡ 2 * names }
    ensures { output.new ≡ values (digits C.Coding names row) }
{
    // By index: of what an iterator over chunks hands out to be written, nothing is known afterwards.
    for k in 0..names {
        output[2 * k] = b'0' + digit_at(row, k);
        output[2 * k + 1] = b' ';
    }
    output[2 * names - 1] = b'\n';
}

// Puts a names line, given with its line feed, and rows into the output as a sheet and gives its length; later bytes
// stay. Checked in this order: the names line, the number of names, the sheet's length, the room, the rows' digits. A
// refused write leaves the output as it was.
pub fn write<C: Ternary>(head: &[u8], rows: &[C], output: &mut [u8]) -> Result<usize, Refusal>
    ensures { MatchResult result
        (λ m. Wrote C.Coding head.now rows.now output.old output.new m)
        (λ e. (output.new ≡ output.old)
        × Refused C.Coding head.now rows.now (length output.old) (number_of e)) }
{
    let names = count_names(head).ok_or(Refusal::BadNames)?;
    // The width alone is tested, and not by `check_length`: a names line has a name, and each place of a row is then seen to
    // be one of the coding's.
    if names > C::width() {
        return Err(Refusal::LengthOutOfRange);
    }
    let size = sheet_size(head.len(), rows.len(), names).ok_or(Refusal::TextTooLong)?;
    check_room(size, output.len())?;
    if !all_long(rows, names) {
        return Err(Refusal::BeyondLength);
    }
    output[..head.len()].copy_from_slice(head);
    // Each part is cut by its number for the same reason.
    for (number, row) in rows.iter().enumerate() {
        let start = head.len() + number * (2 * names);
        write_row(*row, names, &mut output[start..start + 2 * names]);
    }
    Ok(size)
}
