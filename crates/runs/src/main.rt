// Runs the figures that are not proved, and prints them.
#![tactic(auto)]

mod bounds;
mod engine;

use coding::{Coding, Ternary};
use codings::{Planes, Signs, Single};
use std::io;

// What one coding answers, in rows that are lent.
fn print<C: Ternary>(rt: &HostRuntime, name: &str, rows: &mut [C]) -> io::Result<()> {
    println!(rt; "{name}")?;
    bounds::print(rt, rows)?;
    engine::print(rt, rows)
}

fn main(rt: HostRuntime) -> io::Result<()> {
    print(&rt, "planes", &mut [Planes::zero(); 729])?;
    print(&rt, "signs", &mut [Signs::zero(); 729])?;
    print(&rt, "single", &mut [Single::zero(); 729])
}
