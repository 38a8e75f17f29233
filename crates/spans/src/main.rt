// Prints the lengths and duals that bases take at their bounds, and runs of calls compared.
#![tactic(auto)]

mod bases;
mod runs;

use coding::Coding;
use codings::{Planes, Signs, Single};
use std::io;

// What one coding's bases answer, in rows that are lent.
fn print<C: Coding>(
    rt: &HostRuntime,
    name: &str,
    rows: &mut [C],
    dual: &mut [C],
) -> io::Result<()> {
    println!(rt; "{name}")?;
    bases::print(rt, rows, dual)
}

fn main(rt: HostRuntime) -> io::Result<()> {
    print(
        &rt,
        "planes",
        &mut [Planes::zero(); 64],
        &mut [Planes::zero(); 64],
    )?;
    print(
        &rt,
        "signs",
        &mut [Signs::zero(); 64],
        &mut [Signs::zero(); 64],
    )?;
    print(
        &rt,
        "single",
        &mut [Single::zero(); 32],
        &mut [Single::zero(); 32],
    )?;
    println!(rt; "bases")?;
    runs::print(&rt)
}
