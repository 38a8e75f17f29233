// Counts matrices by their permanents, through tallies, and prints the counts, the bounds of tallies and runs of calls.
#![tactic(auto)]

mod bounds;
mod matrices;
mod runs;

use std::io;

fn main(rt: HostRuntime) -> io::Result<()> {
    for (n, count) in [(1, 3), (2, 81), (3, 19683)] {
        matrices::print(&rt, n, count)?;
    }
    bounds::print(&rt)?;
    runs::print(&rt)
}
