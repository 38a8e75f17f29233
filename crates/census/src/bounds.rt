// The greatest sizes of a tally, and the sizes after them.
use coding::{Coding, Outcome, Ternary};
use codings::{Planes, Single};
use std::io;
use tally::Tally;

pub fn print(rt: &HostRuntime) -> io::Result<()> {
    let mut planes = [Planes::zero(); 62];
    making(rt, "planes", &mut planes, 60)?;
    making(rt, "planes", &mut planes, 61)?;
    let mut single = [Single::zero(); 34];
    making(rt, "single", &mut single, 32)?;
    making(rt, "single", &mut single, 33)
}

fn making<C: Ternary>(rt: &HostRuntime, name: &str, rows: &mut [C], size: usize) -> io::Result<()> {
    println!(rt;
        "{name} tally of size {size}: {}",
        Outcome::passes(Tally::make(rows, size, 6).made())
    )
}
