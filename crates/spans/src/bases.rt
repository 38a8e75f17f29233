// The lengths that a basis is made with, and its dual at no rank and at full rank.
use basis::Basis;
use coding::{Coding, Outcome, Refusal};
use std::io;

// A basis has at most as many places as its coding.
pub fn print<C: Coding>(rt: &HostRuntime, rows: &mut [C], dual: &mut [C]) -> io::Result<()> {
    let width = C::width();
    for n in [0, width, width + 1] {
        println!(rt;
            "basis of length {n}: {}",
            Outcome::passes(Basis::make(rows, n).made())
        )?;
    }
    let mut basis = Basis::make(rows, width);
    duals(rt, sizes(&basis, dual))?;
    duals(rt, full(&mut basis, dual))
}

// The rank, and the number of rows of the dual.
fn sizes<C: Coding>(basis: &Basis<'_, C>, dual: &mut [C]) -> Result<(usize, usize), Refusal> {
    Ok((basis.rank()?, basis.dual(dual)?))
}

// The same once every unit vector is taken in.
fn full<C: Coding>(basis: &mut Basis<'_, C>, dual: &mut [C]) -> Result<(usize, usize), Refusal> {
    for place in 0..C::width() {
        basis.take_in(C::zero().change(place, 1)?)?;
    }
    sizes(basis, dual)
}

fn duals(rt: &HostRuntime, found: Result<(usize, usize), Refusal>) -> io::Result<()> {
    match found {
        Ok((rank, count)) => println!(rt; "basis of rank {rank}: dual of {count} rows"),
        Err(refusal) => println!(rt; "basis: refused by {refusal}"),
    }
}
