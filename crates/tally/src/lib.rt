// The permanent of a square matrix modulo 3, in shares that are worked in any order and each counted exactly once.
#![tactic(auto)]

mod calls;
mod shares;
mod sizes;
mod tables;
mod tallies;

pub use calls::{Call, Unwatched, Watch, result_after};
pub use sizes::MOST_ROWS;
pub use tables::Entry;
pub use tallies::Tally;
