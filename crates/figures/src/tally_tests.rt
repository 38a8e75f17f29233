// Tallies: small permanents in each coding, shares in any order, the bounds, and each refusal with what stays.
use crate::basis_tests::{MARK, refused, stay};
use crate::tests::{shows, vector};
use coding::{Coding, Ternary};
use codings::{Planes, Signs, Single};
use std::process::Abort;
use std::test::Fail;
use tally::{Call, Tally, Unwatched, result_after};

// The rows 110, 011 and 101, whose permanent is 2, and two marked rows.
fn ring<C: Coding>() -> Result<[C; 5], Fail> {
    let mark = vector(&MARK)?;
    Ok([
        vector(&[1, 1, 0])?,
        vector(&[0, 1, 1])?,
        vector(&[1, 0, 1])?,
        mark,
        mark,
    ])
}

// The matrix is as it was, the row after it is zero, and the last row is as it was marked.
fn ring_stays<C: Coding>(rt: &impl Abort, rows: &[C; 5]) -> Result<(), Fail> {
    shows(rt, rows[0], &[1, 1, 0, 0])?;
    shows(rt, rows[1], &[0, 1, 1, 0])?;
    shows(rt, rows[2], &[1, 0, 1, 0])?;
    shows(rt, rows[3], &[0, 0, 0, 0])?;
    stay(rt, rows, 4)
}

// One share, which is the whole.
fn finds<C: Ternary>(rt: &impl Abort, rows: &mut [C], size: usize, digit: u8) -> Result<(), Fail> {
    let mut tally = Tally::make(rows, size, 0);
    assert_eq!(rt; tally.work(0)?, digit);
    assert_eq!(rt; tally.result()?, digit);
    Ok(())
}

#[test]
fn finds_permanents_in_each_coding(rt: HostRuntime) -> Result<(), Fail> {
    let mut planes: [Planes; 5] = ring()?;
    finds(&rt, &mut planes, 3, 2)?;
    ring_stays(&rt, &planes)?;
    let mut signs: [Signs; 5] = ring()?;
    finds(&rt, &mut signs, 3, 2)?;
    let mut single: [Single; 5] = ring()?;
    finds(&rt, &mut single, 3, 2)?;
    let one: Planes = vector(&[1])?;
    finds(&rt, &mut [one; 2], 1, 1)
}

// The positions 0 and 1 have the terms 0 and -1, and the positions 2 and 3 have 4 and -1.
fn cuts_in_two<C: Ternary>(rt: &impl Abort, rows: &mut [C]) -> Result<(), Fail> {
    let mut tally = Tally::make(rows, 2, 1);
    assert_eq!(rt; tally.work(1)?, 0);
    assert_eq!(rt; tally.work(0)?, 2);
    assert_eq!(rt; tally.result()?, 2);
    Ok(())
}

#[test]
fn cuts_in_two_in_each_coding(rt: HostRuntime) -> Result<(), Fail> {
    let planes: Planes = vector(&[1, 1])?;
    cuts_in_two(&rt, &mut [planes; 3])?;
    let signs: Signs = vector(&[1, 1])?;
    cuts_in_two(&rt, &mut [signs; 3])?;
    let single: Single = vector(&[1, 1])?;
    cuts_in_two(&rt, &mut [single; 3])
}

// Works four shares in the order given, the first of them once more after a strike.
fn works_in_order<C: Ternary>(rt: &impl Abort, rows: &mut [C], order: [u8; 4]) -> Result<(), Fail> {
    let mut tally = Tally::make(rows, 3, 2);
    let digit = tally.work(order[0])?;
    tally.work(order[1])?;
    tally.strike(order[0])?;
    tally.work(order[2])?;
    tally.work(order[3])?;
    assert_eq!(rt; refused(tally.result()), 15);
    assert_eq!(rt; tally.work(order[0])?, digit);
    assert_eq!(rt; tally.result()?, 2);
    Ok(())
}

#[test]
fn works_in_any_order(rt: HostRuntime) -> Result<(), Fail> {
    let mut rows: [Planes; 5] = ring()?;
    works_in_order(&rt, &mut rows, [0, 1, 2, 3])?;
    works_in_order(&rt, &mut rows, [3, 1, 0, 2])?;
    works_in_order(&rt, &mut rows, [2, 3, 1, 0])?;
    ring_stays(&rt, &rows)
}

// With two splits there are the shares 0 to 3.
#[test]
fn books_each_share_once(rt: HostRuntime) -> Result<(), Fail> {
    let mut rows: [Single; 5] = ring()?;
    let mut tally = Tally::make(&mut rows, 3, 2);
    assert_eq!(rt; refused(tally.work(4)), 9);
    assert_eq!(rt; refused(tally.strike(4)), 9);
    assert_eq!(rt; refused(tally.strike(3)), 14);
    tally.work(3)?;
    assert_eq!(rt; refused(tally.work(3)), 13);
    tally.strike(3)?;
    assert_eq!(rt; refused(tally.strike(3)), 14);
    assert_eq!(rt; refused(tally.result()), 15);
    ring_stays(&rt, &rows)
}

// Every call gives the refusal of the making, also where the share has too high a number.
fn stays_void<C: Ternary>(
    rt: &impl Abort,
    rows: &mut [C],
    size: usize,
    splits: usize,
    number: u8,
) -> Result<(), Fail> {
    let mut tally = Tally::make(rows, size, splits);
    assert_eq!(rt; refused(tally.made()), number);
    assert_eq!(rt; refused(tally.work(0)), number);
    assert_eq!(rt; refused(tally.work(255)), number);
    assert_eq!(rt; refused(tally.strike(255)), number);
    assert_eq!(rt; refused(tally.result()), number);
    stay(rt, rows, 0)
}

// Two rows that have length 3: each making but the last has a fault that is checked later as well.
fn stays_void_each_time<C: Ternary>(rt: &impl Abort, rows: &mut [C]) -> Result<(), Fail> {
    stays_void(rt, rows, 0, 7, 6)?;
    stays_void(rt, rows, 61, 7, 6)?;
    stays_void(rt, rows, C::width() + 1, 7, 6)?;
    stays_void(rt, rows, 2, 7, 7)?;
    stays_void(rt, rows, 2, 3, 7)?;
    stays_void(rt, rows, 2, 2, 8)?;
    stays_void(rt, rows, 1, 1, 11)
}

#[test]
fn stays_void_in_each_coding(rt: HostRuntime) -> Result<(), Fail> {
    let mut planes: [Planes; 2] = [vector(&MARK)?; 2];
    stays_void_each_time(&rt, &mut planes)?;
    let mut signs: [Signs; 2] = [vector(&MARK)?; 2];
    stays_void_each_time(&rt, &mut signs)?;
    let mut single: [Single; 2] = [vector(&MARK)?; 2];
    stays_void_each_time(&rt, &mut single)
}

// Sixty rows of planes and thirty-two of single words make a tally, with one row to spare, and one row more does not.
#[test]
fn ends_at_sixty_rows_and_at_the_width(rt: HostRuntime) -> Result<(), Fail> {
    let mut planes = [Planes::zero(); 62];
    Tally::make(&mut planes, 60, 6).made()?;
    assert_eq!(rt; refused(Tally::make(&mut planes, 61, 6).made()), 6);
    let mut single = [Single::zero(); 34];
    Tally::make(&mut single, 32, 6).made()?;
    assert_eq!(rt; refused(Tally::make(&mut single, 33, 6).made()), 6);
    Ok(())
}

// Of the calls up to the last, four are refused, and one share is missing in the end.
#[test]
fn runs_a_list_of_calls(rt: HostRuntime) -> Result<(), Fail> {
    let calls = [
        Call::Result,
        Call::Strike(0),
        Call::Work(0),
        Call::Work(0),
        Call::Work(2),
        Call::Strike(0),
        Call::Work(1),
        Call::Work(0),
    ];
    let mut rows: [Signs; 5] = ring()?;
    assert_eq!(rt; result_after(&mut rows, 3, 1, &calls, &mut Unwatched)?, 2);
    ring_stays(&rt, &rows)?;
    let answer = result_after(&mut rows, 3, 1, &calls[0..7], &mut Unwatched);
    assert_eq!(rt; refused(answer), 15);
    assert_eq!(rt;
        refused(result_after(&mut rows, 3, 4, &calls, &mut Unwatched)),
        7
    );
    ring_stays(&rt, &rows)
}
