// Whole runs of calls on the rows 110, 011 and 101, in two codings. The lists have refused calls and strikes.
use coding::{Coding, Refusal};
use codings::{Planes, Single};
use std::io;
use tally::{Call, Unwatched, result_after};

pub fn print(rt: &HostRuntime) -> io::Result<()> {
    let planes = in_planes();
    told(rt, "planes", planes)?;
    let single = in_single();
    told(rt, "single", single)?;
    match (planes, single) {
        (Ok(first), Ok(second)) if first == second => println!(rt; "results equal"),
        (Ok(_), Ok(_)) => println!(rt; "results different"),
        _ => println!(rt; "a result is missing"),
    }
}

fn told(rt: &HostRuntime, name: &str, res: Result<u8, Refusal>) -> io::Result<()> {
    match res {
        Ok(digit) => println!(rt; "{name} 110 011 101: result {digit}"),
        Err(refusal) => println!(rt; "{name} 110 011 101: refused by {refusal}"),
    }
}

// The vector with 1 at two places.
fn pair<C: Coding>(first: usize, second: usize) -> Result<C, Refusal> {
    C::zero().change(first, 1)?.change(second, 1)
}

// The three rows, and the row after them.
fn matrix<C: Coding>() -> Result<[C; 4], Refusal> {
    Ok([pair(0, 1)?, pair(1, 2)?, pair(0, 2)?, C::zero()])
}

fn in_planes() -> Result<u8, Refusal> {
    let calls = [
        Call::Work(1),
        Call::Work(1),
        Call::Result,
        Call::Strike(0),
        Call::Work(0),
        Call::Work(2),
    ];
    result_after(&mut matrix::<Planes>()?, 3, 1, &calls, &mut Unwatched)
}

fn in_single() -> Result<u8, Refusal> {
    let calls = [
        Call::Work(3),
        Call::Work(0),
        Call::Strike(3),
        Call::Work(2),
        Call::Work(4),
        Call::Work(1),
        Call::Work(3),
    ];
    result_after(&mut matrix::<Single>()?, 3, 2, &calls, &mut Unwatched)
}
