// What a coding takes and refuses at its bounds, a printed line for each call.
use coding::{Outcome, Ternary, walk};
use std::io;

// A coding's width is its greatest length, and one more than its greatest place.
pub fn print<C: Ternary>(rt: &HostRuntime, rows: &mut [C]) -> io::Result<()> {
    let width = C::width();
    println!(rt; "width {width}")?;
    lengths(rt, C::zero())?;
    places(rt, C::zero())?;
    rooms(rt, rows)
}

fn lengths<C: Ternary>(rt: &HostRuntime, zero: C) -> io::Result<()> {
    let width = C::width();
    for n in [0, width, width + 1] {
        println!(rt; "next within {n}: {}", Outcome::passes(zero.next(n)))?;
        println!(rt;
            "full product within {n}: {}",
            Outcome::passes(zero.full_product(n))
        )?;
    }
    let beyond = zero.change(1, 2).and_then(|longer| longer.next(1));
    println!(rt; "next of 02 within 1: {}", Outcome::passes(beyond))
}

// A place out of range is told before a digit that is too large.
fn places<C: Ternary>(rt: &HostRuntime, zero: C) -> io::Result<()> {
    let width = C::width();
    for place in [width - 1, width] {
        println!(rt; "digit at {place}: {}", Outcome::passes(zero.digit(place)))?;
        println!(rt;
            "change to 2 at {place}: {}",
            Outcome::passes(zero.change(place, 2))
        )?;
        println!(rt;
            "change to 3 at {place}: {}",
            Outcome::passes(zero.change(place, 3))
        )?;
    }
    Ok(())
}

// There are 729 vectors of length 6, and 2187 of length 7.
fn rooms<C: Ternary>(rt: &HostRuntime, rows: &mut [C]) -> io::Result<()> {
    for n in [6, 7] {
        println!(rt;
            "walk in 729 rows within {n}: {}",
            Outcome::passes(walk(n, rows))
        )?;
    }
    Ok(())
}
