// Bases: the worked figures in each coding, the bounds, and each refusal with what stays.
use crate::tests::{shows, vector};
use basis::{Basis, Call, check_digits, same_coset, same_rows};
use coding::{Coding, Refusal};
use codings::{Planes, Signs, Single};
use std::process::Abort;
use std::test::Fail;

// What stands in rows and bytes before a call, to see what stays.
pub(crate) const MARK: [u8; 3] = [2, 1, 2];

const BYTE: u8 = 9;

// The number of a refusal, and 0 of an answer.
pub(crate) fn refused<T: Drop>(res: Result<T, Refusal>) -> u8 {
    match res {
        Ok(_) => 0,
        Err(refusal) => refusal.number(),
    }
}

// Whether the rows from a number on are as they were marked.
pub(crate) fn stay<C: Coding>(rt: &impl Abort, rows: &[C], from: usize) -> Result<(), Fail> {
    for row in rows.iter().skip(from) {
        shows(rt, *row, &MARK)?;
    }
    Ok(())
}

fn bytes_stay(rt: &impl Abort, bytes: &[u8]) {
    for byte in bytes.iter() {
        assert_eq!(rt; *byte, BYTE);
    }
}

fn takes<C: Coding>(
    rt: &impl Abort,
    basis: &mut Basis<'_, C>,
    digits: &[u8],
    word: &str,
) -> Result<(), Fail> {
    assert_eq!(rt; basis.take_in(vector(digits)?)?.word(), word);
    Ok(())
}

fn comes_to_normal_form<C: Coding>(
    rt: &impl Abort,
    rows: &mut [C],
    first: &[u8],
    second: &[u8],
) -> Result<(), Fail> {
    let mut basis = Basis::make(rows, 3);
    basis.made()?;
    takes(rt, &mut basis, first, "grown")?;
    takes(rt, &mut basis, second, "grown")?;
    takes(rt, &mut basis, &[2, 2, 0], "known")?;
    assert_eq!(rt; basis.rank()?, 2);
    shows(rt, basis.row(0)?, &[1, 0, 2, 0])?;
    shows(rt, basis.row(1)?, &[0, 1, 1, 0])?;
    shows(rt, basis.row(2)?, &[0, 0, 0, 0])?;
    basis.clear()?;
    assert_eq!(rt; basis.rank()?, 0);
    shows(rt, basis.row(0)?, &[0, 0, 0, 0])?;
    stay(rt, rows, 3)
}

#[test]
fn comes_to_normal_form_in_each_coding(rt: HostRuntime) -> Result<(), Fail> {
    let planes: Planes = vector(&MARK)?;
    comes_to_normal_form(&rt, &mut [planes; 5], &[1, 1, 0], &[0, 1, 1])?;
    comes_to_normal_form(&rt, &mut [planes; 5], &[1, 0, 2], &[1, 1, 0])?;
    let signs: Signs = vector(&MARK)?;
    comes_to_normal_form(&rt, &mut [signs; 5], &[1, 0, 2], &[1, 1, 0])?;
    let single: Single = vector(&MARK)?;
    comes_to_normal_form(&rt, &mut [single; 5], &[1, 0, 2], &[1, 1, 0])
}

// The dual has one row, (1, 2, 1); the check digits are those against it and against the marked row after it.
fn leaves_and_checks<C: Coding>(
    rt: &impl Abort,
    rows: &mut [C],
    dual: &mut [C],
) -> Result<(), Fail> {
    let mut basis = Basis::make(rows, 3);
    takes(rt, &mut basis, &[1, 1, 0], "grown")?;
    takes(rt, &mut basis, &[0, 1, 1], "grown")?;
    let whole: C = vector(&[1, 2, 2])?;
    let left = basis.remainder(whole)?;
    shows(rt, left, &[0, 0, 1, 0])?;
    assert!(rt; !basis.contains(whole)?);
    assert!(rt; basis.contains(whole.difference(left))?);
    assert_eq!(rt; basis.dual(dual)?, 1);
    stay(rt, dual, 1)?;
    let mut digits = [BYTE; 3];
    check_digits(dual, whole, &mut digits)?;
    assert_eq!(rt; &digits[0..3], [1, 2, BYTE].as_slice());
    check_digits(dual, left, &mut digits)?;
    assert_eq!(rt; &digits[0..3], [1, 2, BYTE].as_slice());
    Ok(())
}

#[test]
fn leaves_and_checks_in_each_coding(rt: HostRuntime) -> Result<(), Fail> {
    let mut planes: [Planes; 2] = [vector(&MARK)?; 2];
    leaves_and_checks(&rt, &mut [Planes::zero(); 3], &mut planes)?;
    shows(&rt, planes[0], &[1, 2, 1, 0])?;
    let mut signs: [Signs; 2] = [vector(&MARK)?; 2];
    leaves_and_checks(&rt, &mut [Signs::zero(); 3], &mut signs)?;
    shows(&rt, signs[0], &[1, 2, 1, 0])?;
    let mut single: [Single; 2] = [vector(&MARK)?; 2];
    leaves_and_checks(&rt, &mut [Single::zero(); 3], &mut single)?;
    shows(&rt, single[0], &[1, 2, 1, 0])
}

fn refuses_beyond<C: Coding>(rt: &impl Abort, rows: &mut [C]) -> Result<(), Fail> {
    let mut basis = Basis::make(rows, 3);
    let beyond: C = vector(&[0, 0, 0, 1])?;
    assert_eq!(rt; refused(basis.take_in(beyond)), 11);
    assert_eq!(rt; refused(basis.remainder(beyond)), 11);
    assert_eq!(rt; refused(basis.contains(beyond)), 11);
    assert_eq!(rt; refused(basis.row(3)), 9);
    assert_eq!(rt; basis.rank()?, 0);
    Ok(())
}

fn refuses_few<C: Coding>(rt: &impl Abort, rows: &mut [C], few: &mut [C]) -> Result<(), Fail> {
    let basis = Basis::make(rows, 3);
    assert_eq!(rt; refused(basis.dual(few)), 8);
    stay(rt, few, 0)?;
    let mut digits = [BYTE; 1];
    assert_eq!(rt; refused(check_digits(few, C::zero(), &mut digits)), 8);
    bytes_stay(rt, &digits);
    Ok(())
}

#[test]
fn refuses_in_each_coding(rt: HostRuntime) -> Result<(), Fail> {
    refuses_beyond(&rt, &mut [Planes::zero(); 3])?;
    refuses_beyond(&rt, &mut [Signs::zero(); 3])?;
    refuses_beyond(&rt, &mut [Single::zero(); 3])?;
    refuses_few(&rt, &mut [Planes::zero(); 3], &mut [vector(&MARK)?; 2])?;
    refuses_few(&rt, &mut [Signs::zero(); 3], &mut [vector(&MARK)?; 2])?;
    refuses_few(&rt, &mut [Single::zero(); 3], &mut [vector(&MARK)?; 2])
}

// Every call gives the refusal of the making, also where the vector is too long and the number too large.
fn stays_void<C: Coding>(
    rt: &impl Abort,
    rows: &mut [C],
    n: usize,
    number: u8,
) -> Result<(), Fail> {
    let mark: C = vector(&MARK)?;
    let mut basis = Basis::make(rows, n);
    assert_eq!(rt; refused(basis.made()), number);
    assert_eq!(rt; refused(basis.rank()), number);
    assert_eq!(rt; refused(basis.clear()), number);
    assert_eq!(rt; refused(basis.take_in(mark)), number);
    assert_eq!(rt; refused(basis.row(64)), number);
    assert_eq!(rt; refused(basis.remainder(mark)), number);
    assert_eq!(rt; refused(basis.contains(mark)), number);
    assert_eq!(rt; refused(basis.dual(&mut [])), number);
    stay(rt, rows, 0)
}

// Two rows are too few for length 3 and for one above the width, but the length is checked first.
fn stays_void_each_time<C: Coding>(rt: &impl Abort, rows: &mut [C]) -> Result<(), Fail> {
    stays_void(rt, rows, 0, 6)?;
    stays_void(rt, rows, C::width() + 1, 6)?;
    stays_void(rt, rows, 3, 8)
}

#[test]
fn stays_void_in_each_coding(rt: HostRuntime) -> Result<(), Fail> {
    let mut planes: [Planes; 2] = [vector(&MARK)?; 2];
    stays_void_each_time(&rt, &mut planes)?;
    let mut signs: [Signs; 2] = [vector(&MARK)?; 2];
    stays_void_each_time(&rt, &mut signs)?;
    let mut single: [Single; 2] = [vector(&MARK)?; 2];
    stays_void_each_time(&rt, &mut single)
}

// The dual of nothing is all unit vectors; with them the rank is full, the dual is empty and every vector is known.
#[test]
fn spans_sixty_four_places(rt: HostRuntime) -> Result<(), Fail> {
    let mut rows = [Planes::zero(); 64];
    let mut dual = [Planes::zero(); 64];
    let mut basis = Basis::make(&mut rows, 64);
    assert_eq!(rt; basis.dual(&mut dual)?, 64);
    for (place, row) in dual.iter().enumerate() {
        let unit = Planes::zero().change(place, 1)?;
        assert_eq!(rt; row.distance(unit), 0);
        assert_eq!(rt; basis.take_in(unit)?.word(), "grown");
    }
    assert_eq!(rt; basis.rank()?, 64);
    assert_eq!(rt; basis.dual(&mut [])?, 0);
    assert_eq!(rt; basis.take_in(vector(&[2; 64])?)?.word(), "known");
    Ok(())
}

// The vector (1, 2, 0) in words that no answer stores.
#[test]
fn answers_canonical_words(rt: HostRuntime) -> Result<(), Fail> {
    let mut planes = [Planes::zero(); 3];
    let mut basis = Basis::make(&mut planes, 3);
    let loose = Planes {
        first: 0xFFFF_FFFF_FFFF_FFFC,
        second: 0xFFFF_FFFF_FFFF_FFFD,
    };
    let left = basis.remainder(loose)?;
    assert_eq!(rt; (left.first, left.second), loose.read());
    assert_eq!(rt; basis.take_in(loose)?.word(), "grown");
    let row = basis.row(0)?;
    assert_eq!(rt; (row.first, row.second), loose.read());
    let mut single = [Single::zero(); 3];
    let mut basis = Basis::make(&mut single, 3);
    let loose = Single {
        word: 0xFFFF_FFFC_FFFF_FFFD,
    };
    assert_eq!(rt; basis.remainder(loose)?.word, loose.read());
    assert_eq!(rt; basis.take_in(loose)?.word(), "grown");
    assert_eq!(rt; basis.row(0)?.word, loose.read());
    Ok(())
}

fn refuses_same_rows(
    rt: &impl Abort,
    n: usize,
    rows: &mut [Planes],
    other_rows: &mut [Single],
    number: u8,
) -> Result<(), Fail> {
    let planes: Planes = vector(&MARK)?;
    let single: Single = vector(&MARK)?;
    let mut scratch = [planes; 3];
    let mut other_scratch = [single; 3];
    let answer = same_rows(
        n,
        rows,
        &[Call::TakeIn(planes), Call::Dual(3)],
        &mut scratch,
        other_rows,
        &[Call::TakeIn(single), Call::Dual(3)],
        &mut other_scratch,
    );
    assert_eq!(rt; refused(answer), number);
    stay(rt, rows, 0)?;
    stay(rt, &scratch, 0)?;
    stay(rt, other_rows, 0)?;
    stay(rt, &other_scratch, 0)
}

// The making of the first basis, in planes, is refused before that of the second, in single words.
#[test]
fn refuses_same_rows_in_order(rt: HostRuntime) -> Result<(), Fail> {
    let planes: Planes = vector(&MARK)?;
    let single: Single = vector(&MARK)?;
    refuses_same_rows(&rt, 0, &mut [planes; 3], &mut [single; 3], 6)?;
    refuses_same_rows(&rt, 65, &mut [planes; 2], &mut [single; 2], 6)?;
    refuses_same_rows(&rt, 33, &mut [planes; 32], &mut [single; 33], 8)?;
    refuses_same_rows(&rt, 33, &mut [planes; 33], &mut [single; 2], 6)?;
    refuses_same_rows(&rt, 3, &mut [planes; 3], &mut [single; 2], 8)
}

fn refuses_same_coset(
    rt: &impl Abort,
    n: usize,
    rows: &mut [Planes],
    scratch: &mut [Planes],
    bytes: (&mut [u8], &mut [u8]),
    vectors: (Planes, Planes),
    number: u8,
) -> Result<(), Fail> {
    let (first_digits, second_digits) = bytes;
    let (first, second) = vectors;
    let answer = same_coset(
        n,
        rows,
        &[Call::TakeIn(first), Call::Clear, Call::Dual(3)],
        scratch,
        first,
        first_digits,
        second,
        second_digits,
    );
    assert_eq!(rt; refused(answer), number);
    stay(rt, rows, 0)?;
    stay(rt, scratch, 0)?;
    bytes_stay(rt, first_digits);
    bytes_stay(rt, second_digits);
    Ok(())
}

// The making is refused first, then too little room for the dual or the digits, then a vector that goes beyond.
#[test]
fn refuses_same_coset_in_order(rt: HostRuntime) -> Result<(), Fail> {
    let m: Planes = vector(&MARK)?;
    let far: Planes = vector(&[1, 2, 2, 1])?;
    let b = BYTE;
    refuses_same_coset(
        &rt,
        0,
        &mut [m; 2],
        &mut [],
        (&mut [], &mut []),
        (far, m),
        6,
    )?;
    refuses_same_coset(
        &rt,
        65,
        &mut [m; 2],
        &mut [],
        (&mut [], &mut []),
        (far, m),
        6,
    )?;
    refuses_same_coset(
        &rt,
        3,
        &mut [m; 2],
        &mut [m; 3],
        (&mut [b; 3], &mut [b; 3]),
        (m, m),
        8,
    )?;
    refuses_same_coset(
        &rt,
        3,
        &mut [m; 3],
        &mut [m; 2],
        (&mut [b; 3], &mut [b; 3]),
        (far, m),
        8,
    )?;
    refuses_same_coset(
        &rt,
        3,
        &mut [m; 3],
        &mut [m; 3],
        (&mut [b; 2], &mut [b; 3]),
        (m, far),
        8,
    )?;
    refuses_same_coset(
        &rt,
        3,
        &mut [m; 3],
        &mut [m; 3],
        (&mut [b; 3], &mut [b; 2]),
        (far, m),
        8,
    )?;
    refuses_same_coset(
        &rt,
        3,
        &mut [m; 3],
        &mut [m; 3],
        (&mut [b; 3], &mut [b; 3]),
        (far, m),
        11,
    )?;
    refuses_same_coset(
        &rt,
        3,
        &mut [m; 3],
        &mut [m; 3],
        (&mut [b; 3], &mut [b; 3]),
        (m, far),
        11,
    )
}

// At full rank there is one coset: no check digit is written, and nothing is left of any vector.
#[test]
fn finds_one_coset_at_full_rank(rt: HostRuntime) -> Result<(), Fail> {
    let calls = [
        Call::TakeIn(vector(&[1, 1])?),
        Call::TakeIn(vector(&[1, 2])?),
    ];
    let mut scratch: [Planes; 2] = [vector(&MARK)?; 2];
    let mut first_digits = [BYTE; 2];
    let mut second_digits = [BYTE; 2];
    let compared = same_coset(
        2,
        &mut [Planes::zero(); 2],
        &calls,
        &mut scratch,
        vector(&[0, 1])?,
        &mut first_digits,
        vector(&[2, 0])?,
        &mut second_digits,
    )?;
    assert!(rt; compared.check_digits && compared.remainders);
    stay(&rt, &scratch, 0)?;
    bytes_stay(&rt, &first_digits);
    bytes_stay(&rt, &second_digits);
    Ok(())
}
