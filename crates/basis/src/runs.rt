// Whole runs of calls: whether two bases come to the same rows, and whether two vectors lie in one coset.
ghost use Rattle.std.specs.Prelude.{◌≡◌, ℕ, ◌<◌, ◌≤◌, ◌⊎◌, ◌↔◌, List, length, Decides, MatchResult, OnErr};
ghost use Rattle.algebra.specs.Field.{value};
ghost use Rattle.algebra.specs.Vector.{Vector, Long};
ghost use Rattle.coding.specs.Lengths.{InRange};
ghost use Rattle.basis.specs.Agree.{SameDigits, SameSpans};
ghost use Rattle.basis.specs.Answers.{NotMade};
ghost use Rattle.basis.specs.Calls.{accepted};
ghost use Rattle.basis.specs.Stands.{Stands};
ghost use Rattle.basis.specs.Runs.{Ran, Comparison, Cosets, CosetsRefused};

use crate::bases::{Basis, can_make};
use crate::calls::{Call, apply_all};
use crate::checks::check_digits;
use coding::{Coding, Refusal, check_long, check_room, digit_at, first_of};

// Whether two vectors have equal check digits, and whether they leave equal remainders.
#[derive(Clone, Copy, PartialEq, Eq, Debug)]
pub struct Compared {
    pub check_digits: bool,
    pub remainders: bool,
}

// Makes a basis in the rows and runs the calls on it. The parameters are no struct, as in `same_rows`.
fn run<C: Coding>(n: usize, rows: &mut [C], calls: &[Call<C>], scratch: &mut [C])
    requires { InRange C.Coding.width n × (n ≤ length rows.old) }
    ensures { Ran C.Coding n calls.now rows.old rows.new scratch.old scratch.new }
{
    let mut basis = Basis::make(rows, n);
    apply_all(&mut basis, calls, scratch);
}

// Whether two vectors hold equal digits at the places below n. It is no `==`, since their codings may differ.
fn same_digits<C: Coding, D: Coding>(first: C, second: D, n: usize) -> bool
    ensures { Decides result ((k : ℕ) → k < n → value (C.Coding.meant first k) ≡ value (D.Coding.meant second k)) }
{
    for place in 0..n {
        if digit_at(first, place) != digit_at(second, place) {
            return false;
        }
    }
    true
}

// Whether the rows of two lists hold equal digits at the places below n.
fn rows_agree<C: Coding, D: Coding>(first: &[C], second: &[D], n: usize) -> bool
    requires { (length first.now ≡ n) × (length second.now ≡ n) }
    ensures { Decides result (SameDigits C.Coding D.Coding n first.now second.now) }
{
    for (row, other) in first.iter().zip(second) {
        if !same_digits(*row, *other, n) {
            return false;
        }
    }
    true
}

// Runs two lists of calls on two bases of one length, which may have different codings, and answers whether their
// rows below that length agree digit for digit. Of two codings of one field, they do exactly when the accepted
// vectors have the same combinations. A making that is refused, the first basis's before the second's, leaves all rows.
// The rows, calls and scratch of a run are no struct: of lent rows in one, a clause has only `run.exit.0.now` for `rows.new`.
pub fn same_rows<C: Coding, D: Coding>(
    n: usize,
    rows: &mut [C],
    calls: &[Call<C>],
    scratch: &mut [C],
    other_rows: &mut [D],
    other_calls: &[Call<D>],
    other_scratch: &mut [D],
) -> Result<bool, Refusal>
    ensures answer { MatchResult result
        (λ yes. Decides yes (SameDigits C.Coding D.Coding n rows.new other_rows.new)
        × (C.Coding.field ≡ D.Coding.field
        → SameDigits C.Coding D.Coding n rows.new other_rows.new
        ↔ SameSpans C.Coding.field D.Coding.field (accepted C.Coding n calls.now) (accepted D.Coding n other_calls.now)))
        (λ e. NotMade C.Coding.width n (length rows.old) e
        ⊎ (InRange C.Coding.width n × (n ≤ length rows.old) × NotMade D.Coding.width n (length other_rows.old) e)) }
    ensures memory { MatchResult result
        (λ _. Ran C.Coding n calls.now rows.old rows.new scratch.old scratch.new
        × Ran D.Coding n other_calls.now other_rows.old other_rows.new other_scratch.old other_scratch.new)
        (λ _. (rows.new ≡ rows.old) × (scratch.new ≡ scratch.old)
        × (other_rows.new ≡ other_rows.old) × (other_scratch.new ≡ other_scratch.old)) }
{
    can_make::<C>(n, rows.len())?;
    can_make::<D>(n, other_rows.len())?;
    run(n, rows, calls, scratch);
    run(n, other_rows, other_calls, other_scratch);
    Ok(rows_agree(&rows[..n], &other_rows[..n], n))
}

// Writes the dual and the check digits of two vectors against it, and compares those and what is left of both. A basis
// that was made refuses none of that where there is room for n rows and bytes and both vectors have length n.
fn compare<C: Coding>(
    basis: &Basis<'_, C>,
    n: usize,
    scratch: &mut [C],
    first: C,
    first_digits: &mut [u8],
    second: C,
    second_digits: &mut [u8],
) -> Result<Compared, Refusal>
    ensures { (vs : List (Vector C.Coding.field)) → Stands C.Coding basis.now vs → basis.now.sizes.length ≡ n
        → n ≤ length scratch.old → n ≤ length first_digits.old → n ≤ length second_digits.old
        → Long C.Coding.field n (C.Coding.meant first) → Long C.Coding.field n (C.Coding.meant second)
        → MatchResult result (Comparison C.Coding n basis.now.sizes.rank basis.now.rows.now vs (C.Coding.meant first) (C.Coding.meant second) scratch.old scratch.new first_digits.old first_digits.new second_digits.old second_digits.new) (λ _. ⊥) }
{
    let count = basis.dual(scratch)?;
    let dual = first_of(scratch, count);
    check_digits(dual, first, first_digits)?;
    check_digits(dual, second, second_digits)?;
    let left = basis.remainder(first)?;
    let right = basis.remainder(second)?;
    Ok(Compared {
        check_digits: first_of(first_digits, count) == first_of(second_digits, count),
        remainders: same_digits(left, right, n),
    })
}

// Runs a list of calls on a basis, then writes its dual into the scratch and the check digits of two vectors against it
// into the bytes, and compares those and the remainders. They agree, and are equal exactly when the difference of the
// vectors is a combination of the accepted ones. Checked before anything is written: the making, the room for n rows
// and n bytes each, and the length of both vectors. The parameters are no structs here either, as in `same_rows`.
pub fn same_coset<C: Coding>(
    n: usize,
    rows: &mut [C],
    calls: &[Call<C>],
    scratch: &mut [C],
    first: C,
    first_digits: &mut [u8],
    second: C,
    second_digits: &mut [u8],
) -> Result<Compared, Refusal>
    ensures answer { MatchResult result
        (Cosets C.Coding n calls.now (C.Coding.meant first) (C.Coding.meant second) rows.old rows.new scratch.old scratch.new first_digits.old first_digits.new second_digits.old second_digits.new)
        (CosetsRefused C.Coding n (length rows.old) (length scratch.old) (length first_digits.old) (length second_digits.old) (C.Coding.meant first) (C.Coding.meant second)) }
    ensures room { MatchResult result
        (λ _. (n ≤ length scratch.old) × (n ≤ length first_digits.old) × (n ≤ length second_digits.old) × Long C.Coding.field n (C.Coding.meant first) × Long C.Coding.field n (C.Coding.meant second))
        (λ _. Unit {0}) }
    ensures refused { OnErr result ((rows.new ≡ rows.old) × (scratch.new ≡ scratch.old) × (first_digits.new ≡ first_digits.old) × (second_digits.new ≡ second_digits.old)) }
{
    can_make::<C>(n, rows.len())?;
    check_room(n, scratch.len())?;
    check_room(n, first_digits.len())?;
    check_room(n, second_digits.len())?;
    check_long(first, n)?;
    check_long(second, n)?;
    let mut basis = Basis::make(rows, n);
    apply_all(&mut basis, calls, scratch);
    compare(
        &basis,
        n,
        scratch,
        first,
        first_digits,
        second,
        second_digits,
    )
}
