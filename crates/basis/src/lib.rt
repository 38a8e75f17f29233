// Bases of spaces of vectors, kept in normal form in rows that the caller lends, for every coding.
#![tactic(auto)]

mod bases;
mod calls;
mod checks;
mod duals;
mod rows;
mod runs;
mod sizes;
mod taken;

pub use bases::Basis;
pub use calls::{Call, Question};
pub use checks::check_digits;
pub use runs::{Compared, same_coset, same_rows};
pub use taken::Taken;
