// All vectors of a length, counted by weight: one text for every coding.
use coding::{Ternary, walk_weights};
use std::io;

// A line for each length up to the greatest that the rows have room for.
pub fn print<C: Ternary>(rt: &HostRuntime, rows: &mut [C]) -> io::Result<()> {
    for n in 1..8usize {
        let mut counts = [0; 65];
        match walk_weights(n, rows, &mut counts) {
            Ok(_) => weights(rt, n, &counts[..=n])?,
            Err(refusal) => println!(rt; "weights within {n}: refused by {refusal}")?,
        }
    }
    Ok(())
}

fn weights(rt: &HostRuntime, n: usize, counts: &[usize]) -> io::Result<()> {
    print!(rt; "weights within {n}:")?;
    for count in counts {
        print!(rt; " {count}")?;
    }
    println!(rt; "")
}
