// How many vectors of a list have each weight, and how many of all vectors of a length.
ghost use Rattle.std.specs.Prelude.{◌≡◌, ◌^◌, ◌<◌, ◌≤◌, ◌⊎◌, length, take, MatchResult};
ghost use Rattle.coding.specs.Refusals.{number_of};
ghost use Rattle.coding.specs.Lengths.{InRange, OutOfRange};
ghost use Rattle.coding.specs.Walks.{Walked};
ghost use Rattle.coding.specs.Weights.{Counted};

use crate::lengths::{check_length, check_room};
use crate::refusals::Refusal;
use crate::vectors::{Coding, Ternary};
use crate::walks::walk;

// Writes one number for each weight from 0 to the width: how many of the rows have it. Later numbers stay.
pub fn count_weights<C: Coding>(rows: &[C], counts: &mut [usize]) -> Result<(), Refusal>
    ensures { MatchResult result
        (λ _. Counted C.Coding rows.now counts.old counts.new)
        (λ e. (number_of e ≡ 8) × (length counts.old ≤ C.Coding.width) × (counts.new ≡ counts.old)) }
{
    let width = C::width();
    check_room(width + 1, counts.len())?;
    counts[..=width].fill(0);
    for row in rows {
        let weight = row.weight();
        counts[weight] += 1;
    }
    Ok(())
}

// Walks through all vectors of length n in the rows, counts them by weight, and gives their number. The length is
// checked before the room for the vectors and for the counts.
pub fn walk_weights<C: Ternary>(
    n: usize,
    rows: &mut [C],
    counts: &mut [usize],
) -> Result<usize, Refusal>
    ensures { MatchResult result
        (λ m. InRange C.Coding.width n
        × Walked C.Coding n m rows.old rows.new
        × Counted C.Coding (take m rows.new) counts.old counts.new)
        (λ e. (rows.new ≡ rows.old) × (counts.new ≡ counts.old)
        × (((number_of e ≡ 6) × OutOfRange C.Coding.width n)
        ⊎ ((number_of e ≡ 8) × InRange C.Coding.width n
        × ((length rows.old < C.Coding.field.size ^ n) ⊎ (length counts.old ≤ C.Coding.width))))) }
{
    check_length(n, C::width())?;
    check_room(C::width() + 1, counts.len())?;
    let count = walk(n, rows)?;
    count_weights(&rows[0..count], counts)?;
    Ok(count)
}
