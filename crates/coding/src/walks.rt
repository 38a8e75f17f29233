// All vectors of a length, written out in the successor order.
ghost use Rattle.std.specs.Prelude.{◌≡◌, ◌^◌, ◌<◌, ◌≤◌, ◌⊎◌, length, Decides, MatchResult};
ghost use Rattle.coding.specs.Refusals.{number_of};
ghost use Rattle.coding.specs.Lengths.{InRange, OutOfRange};
ghost use Rattle.coding.specs.Walks.{Walked};

use crate::lengths::check_length;
use crate::refusals::Refusal;
use crate::vectors::Ternary;

// Whether there are at least as many rows as vectors of length n. The number of vectors may be too large for a usize,
// so the rows are divided instead.
fn enough(rows: usize, n: usize) -> bool
    ensures { Decides result (3 ^ n ≤ rows) }
{
    let mut left = rows;
    for _ in 0..n {
        left /= 3;
    }
    left > 0
}

// Writes all vectors of length n into the first rows of the output, each once, from zero on by successors, and gives
// their number. The length is checked before the room.
pub fn walk<C: Ternary>(n: usize, output: &mut [C]) -> Result<usize, Refusal>
    ensures { MatchResult result
        (λ m. InRange C.Coding.width n × Walked C.Coding n m output.old output.new)
        (λ e. (output.new ≡ output.old)
        × (((number_of e ≡ 6) × OutOfRange C.Coding.width n)
        ⊎ ((number_of e ≡ 8) × InRange C.Coding.width n × (length output.old < C.Coding.field.size ^ n)))) }
{
    check_length(n, C::width())?;
    if !enough(output.len(), n) {
        return Err(Refusal::TooLittleRoom);
    }
    let mut x = C::zero();
    output[0] = x;
    let mut count = 1;
    // Counted by hand: the walk ends by the last vector and not by the rows, and the number is the answer. No successor is
    // refused, since the length is in range and each vector has it.
    while let Some(y) = x.next(n)? {
        output[count] = y;
        count += 1;
        x = y;
    }
    Ok(count)
}
