// Calls as values, and lists of them run on a basis.
ghost use Rattle.std.specs.Prelude.{◌≡◌, List, drop, fold};
ghost use Rattle.algebra.specs.Vector.{Vector};
ghost use Rattle.basis.specs.Stands.{Stands, Kept};
ghost use Rattle.basis.specs.Calls.{after_call};

use crate::bases::Basis;
use coding::Coding;

// What a basis is asked. It changes nothing.
#[derive(Clone, Copy)]
pub enum Question<C> {
    Rank,
    Row(usize),
    Remainder(C),
    Contains(C),
}

// One call of a list. Calls are values and no closures: what a list has had accepted is computed from the calls alone. A
// dual uses so many of the first rows of the scratch, or all where there are fewer.
#[derive(Clone, Copy)]
pub enum Call<C> {
    TakeIn(C),
    Clear,
    Dual(usize),
    Ask(Question<C>),
}

// Asks, and leaves the answer.
fn ask<C: Coding>(basis: &Basis<'_, C>, question: Question<C>) {
    match question {
        Question::Rank => {
            let _ = basis.rank();
        }
        Question::Row(number) => {
            let _ = basis.row(number);
        }
        Question::Remainder(vector) => {
            let _ = basis.remainder(vector);
        }
        Question::Contains(vector) => {
            let _ = basis.contains(vector);
        }
    }
}

// Writes the dual into the first rows of the scratch, if they are enough.
fn dual_within<C: Coding>(basis: &Basis<'_, C>, scratch: &mut [C], room: usize)
    ensures { (vs : List (Vector C.Coding.field)) → Stands C.Coding basis.now vs
        → drop basis.now.sizes.length scratch.new ≡ drop basis.now.sizes.length scratch.old }
{
    let room = room.min(scratch.len());
    let _ = basis.dual(&mut scratch[..room]);
}

// One call of a list. Its answer, or its refusal, is left.
fn apply<C: Coding>(basis: &mut Basis<'_, C>, call: Call<C>, scratch: &mut [C])
    ensures stands { (vs : List (Vector C.Coding.field)) → Stands C.Coding basis.old vs
        → Stands C.Coding basis.new (after_call C.Coding basis.old.sizes.length vs call)
        × (drop basis.old.sizes.length scratch.new ≡ drop basis.old.sizes.length scratch.old) }
    ensures kept { Kept basis.old basis.new }
{
    match call {
        Call::TakeIn(vector) => {
            let _ = basis.take_in(vector);
        }
        Call::Clear => {
            let _ = basis.clear();
        }
        Call::Dual(room) => dual_within(basis, scratch, room),
        Call::Ask(question) => ask(basis, question),
    }
}

// All calls of a list, in their order; the run goes on past refused ones.
pub(crate) fn apply_all<C: Coding>(basis: &mut Basis<'_, C>, calls: &[Call<C>], scratch: &mut [C])
    ensures stands { (vs : List (Vector C.Coding.field)) → Stands C.Coding basis.old vs
        → Stands C.Coding basis.new (fold (after_call C.Coding basis.old.sizes.length) vs calls.now)
        × (drop basis.old.sizes.length scratch.new ≡ drop basis.old.sizes.length scratch.old) }
    ensures kept { Kept basis.old basis.new }
{
    for call in calls {
        apply(basis, *call, scratch);
    }
}
