// Calls as values, and lists of them run on a tally.
ghost use Rattle.std.specs.Prelude.{◌≡◌, ℕ, ◌%◌, Bool, ◌⊎◌, fold, MatchResult, ◌≢◌, slice_index_or};
ghost use Rattle.std.specs.List.{HoldsAt};
ghost use Rattle.algebra.specs.Vector.{zeros};
ghost use Rattle.algebra.specs.Permanent.{permanent};
ghost use Rattle.coding.specs.Refusals.{number_of};
ghost use Rattle.tally.specs.Booking.{AllBooked, Missing};
ghost use Rattle.tally.specs.Calls.{after_call, booked_by};
ghost use Rattle.tally.specs.Matrix.{matrix};
ghost use Rattle.tally.specs.Makings.{Makes, NotMade};
ghost use Rattle.tally.specs.Stands.{Stands, Kept};

use crate::tallies::Tally;
use coding::{Coding, Refusal, Ternary};

// One call of a list. Calls are values and no closures: what a list has booked is computed from the calls alone.
#[derive(Clone, Copy)]
pub enum Call {
    Work(u8),
    Strike(u8),
    Result,
}

// Who is told how many calls of a run are done, after each. What it does with that is its own: no answer depends on it. It
// is a trait and no closure, which a function would have to require to be callable; no public function here requires anything.
pub trait Watch {
    fn done(&mut self, calls: usize);
}

// Leaves what it is told.
#[derive(Drop)]
pub struct Unwatched;

impl Watch for Unwatched {
    fn done(&mut self, _calls: usize) {}
}

// One call of a list. Its answer, or its refusal, is left.
fn apply<C: Ternary>(tally: &mut Tally<'_, C>, call: Call)
    ensures stands { (b : ℕ → Bool) → Stands tally.old b
        → Stands tally.new (after_call tally.old.sizes.splits b call) }
    ensures kept { Kept tally.old tally.new }
{
    match call {
        Call::Work(share) => {
            let _ = tally.work(share);
        }
        Call::Strike(share) => {
            let _ = tally.strike(share);
        }
        Call::Result => {
            let _ = tally.result();
        }
    }
}

// All calls of a list, in their order; the run goes on past refused ones.
fn apply_all<C: Ternary, W: Watch>(tally: &mut Tally<'_, C>, calls: &[Call], watch: &mut W)
    ensures stands { (b : ℕ → Bool) → Stands tally.old b
        → Stands tally.new (fold (after_call tally.old.sizes.splits) b calls.now) }
    ensures kept { Kept tally.old tally.new }
{
    for (i, call) in calls.iter().enumerate() {
        apply(tally, *call);
        watch.done(i + 1);
    }
}

// Makes a tally of the rows, runs the calls on it, and gives what `result` gives at the end: the permanent of the
// matrix exactly when no share is missing, as the calls alone say. A refused making leaves all rows; otherwise only
// the row after the matrix is written, and holds zero. The watch is told after each call how many are done.
pub fn result_after<C: Ternary, W: Watch>(
    rows: &mut [C],
    size: usize,
    splits: usize,
    calls: &[Call],
    watch: &mut W,
) -> Result<u8, Refusal>
    ensures answer { MatchResult result
        (λ d. Makes C.Coding size splits rows.old
        × HoldsAt (λ x. C.Coding.meant x ≡ zeros C.Coding.field) rows.new size
        × AllBooked splits (booked_by splits calls.now)
        × (d ≡ permanent (matrix C.Coding rows.old) size % 3))
        (λ e. (NotMade C.Coding size splits rows.old e × (rows.new ≡ rows.old))
        ⊎ (Makes C.Coding size splits rows.old × HoldsAt (λ x. C.Coding.meant x ≡ zeros C.Coding.field) rows.new size × (number_of e ≡ 15) × Missing splits (booked_by splits calls.now))) }
    ensures memory { (k : ℕ) (d : C) → (k ≢ size) → slice_index_or rows.new k d ≡ slice_index_or rows.old k d }
{
    let mut tally = Tally::make(rows, size, splits);
    apply_all(&mut tally, calls, watch);
    tally.result()
}
