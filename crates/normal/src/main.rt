// Prints the reduced row echelon form, modulo 3, of a sheet that it reads from standard input.
#![tactic(auto)]

#[cfg(test)]
mod tests;

use coding::first_of;
use jobs::{MOST_READ, MOST_WRITTEN, fault_lines, normal};
use std::io;
use std::io::{Read, Write};

fn main(rt: HostRuntime) -> io::Result<()> {
    let mut text = Vec::new(rt.alloc());
    rt.stdin().take(MOST_READ).read_to_end(&mut text)?;
    let mut output = vec![in rt.alloc(); 0; MOST_WRITTEN]?;
    match normal(text.as_slice(), output.as_mut_slice()) {
        Ok(length) => rt.stdout().write_all(first_of(output.as_slice(), length)),
        Err(fault) => rt.print(fault_lines(rt.alloc(), fault)?),
    }
}
