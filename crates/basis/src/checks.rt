// Check digits: the dot products of a vector with the rows of a list.
ghost use Rattle.std.specs.Prelude.{◌≡◌, ◌<◌, length, take, drop, MatchResult};
ghost use Rattle.coding.specs.Refusals.{number_of};
ghost use Rattle.basis.specs.Answers.{check_digits_of};

use coding::{Coding, Refusal, check_room};

// Writes one digit for each row, in their order. Later bytes stay.
pub fn check_digits<C: Coding>(rows: &[C], vector: C, output: &mut [u8]) -> Result<(), Refusal>
    ensures { MatchResult result
        (λ _. (take (length rows.now) output.new ≡ check_digits_of C.Coding rows.now (C.Coding.meant vector))
        × (drop (length rows.now) output.new ≡ drop (length rows.now) output.old))
        (λ e. (number_of e ≡ 8) × (length output.old < length rows.now) × (output.new ≡ output.old)) }
{
    check_room(rows.len(), output.len())?;
    // Written by index: of what `iter_mut().zip(rows)` hands out to be written, nothing is known afterwards.
    for (i, row) in rows.iter().enumerate() {
        output[i] = row.dot(vector);
    }
    Ok(())
}
