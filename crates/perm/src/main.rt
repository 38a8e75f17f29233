// Prints the size and the permanent, modulo 3, of the matrix of a sheet that it reads from standard input.
#![tactic(auto)]

#[cfg(test)]
mod tests;

use jobs::{MOST_READ, fault_lines, permanent};
use std::io;
use std::io::Read;

fn main(rt: HostRuntime) -> io::Result<()> {
    let mut text = Vec::new(rt.alloc());
    rt.stdin().take(MOST_READ).read_to_end(&mut text)?;
    match permanent(text.as_slice()) {
        Ok(answer) => println!(rt; "size perm\n{answer}"),
        Err(fault) => rt.print(fault_lines(rt.alloc(), fault)?),
    }
}
