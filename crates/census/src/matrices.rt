// All matrices of a size, and how many of them have the permanent 0 modulo 3.
use coding::{Coding, Refusal, Ternary};
use codings::Planes;
use std::io;
use tally::Tally;

// A line for the matrices of size n, of which there are so many.
pub fn print(rt: &HostRuntime, n: usize, count: u32) -> io::Result<()> {
    match zeros(n, count) {
        Ok(found) => println!(rt; "size {n}: {found} of {count} matrices have permanent 0"),
        Err(refusal) => println!(rt; "size {n}: refused by {refusal}"),
    }
}

fn zeros(n: usize, count: u32) -> Result<u32, Refusal> {
    // Counted by hand: a closure for `filter` could not hand a refusal on.
    let mut found = 0u32;
    for number in 0..count {
        let mut rows = matrix(n, number)?;
        if permanent(&mut rows, n)? == 0 {
            found = found.saturating_add(1);
        }
    }
    Ok(found)
}

// The matrix whose entries are the digits of a number in base 3, and zero rows after it.
fn matrix(n: usize, number: u32) -> Result<[Planes; 4], Refusal> {
    let (first, rest) = row(n, number)?;
    let (second, rest) = row(n, rest)?;
    let (third, _) = row(n, rest)?;
    Ok([first, second, third, Planes::zero()])
}

// The n lowest digits of a number, and the number without them.
fn row(n: usize, number: u32) -> Result<(Planes, u32), Refusal> {
    let mut vector = Planes::zero();
    let mut rest = number;
    for place in 0..n {
        vector = vector.change(place, (rest % 3) as u8)?;
        rest /= 3;
    }
    Ok((vector, rest))
}

// The permanent of the first rows, in two shares.
fn permanent<C: Ternary>(rows: &mut [C], n: usize) -> Result<u8, Refusal> {
    let mut tally = Tally::make(rows, n, 1);
    tally.work(1)?;
    tally.work(0)?;
    tally.result()
}
