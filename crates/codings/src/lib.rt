// The codings: each lays the digits of a vector into machine words in its own way.
#![tactic(auto)]

mod digits;
mod full;
mod planes;
mod signs;
mod singles;

pub use planes::Planes;
pub use signs::Signs;
pub use singles::Single;
