// Finds the permanent of one matrix of size 26 in one share, and prints it.
#![tactic(auto)]

use coding::{Coding, Refusal};
use codings::Planes;
use std::io;
use tally::Tally;

fn main(rt: HostRuntime) -> io::Result<()> {
    match permanent() {
        Ok(digit) => println!(rt; "size 26: permanent {digit}"),
        Err(refusal) => println!(rt; "size 26: refused by {refusal}"),
    }
}

fn permanent() -> Result<u8, Refusal> {
    let mut rows = [Planes::zero(); 27];
    fill(&mut rows)?;
    let mut tally = Tally::make(&mut rows, 26, 0);
    tally.work(0)?;
    tally.result()
}

// Each row is drawn with the seed that the row before it left.
fn fill(rows: &mut [Planes]) -> Result<(), Refusal> {
    let mut seed = 2;
    for row in rows.iter_mut().take(26) {
        let (vector, next) = drawn(seed)?;
        *row = vector;
        seed = next;
    }
    Ok(())
}

// A row of 26 digits drawn from a seed, and the seed after it.
fn drawn(seed: u32) -> Result<(Planes, u32), Refusal> {
    let mut row = Planes::zero();
    let mut next = seed;
    for place in 0..26usize {
        next = next.wrapping_mul(1103515245).wrapping_add(12345);
        row = row.change(place, (next / 65536 % 3) as u8)?;
    }
    Ok((row, next))
}
