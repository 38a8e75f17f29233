// Vectors of digits of a small field, known to all other code by the digits they mean, and the refusals of the whole library.
#![tactic(auto)]

mod lengths;
mod outcomes;
mod parts;
mod refusals;
mod vectors;
mod walks;
mod weights;

pub use lengths::{all_long, check_length, check_long, check_place, check_room, digit_at, is_long};
pub use outcomes::Outcome;
pub use parts::first_of;
pub use refusals::Refusal;
pub use vectors::{Coding, Lead, Ternary};
pub use walks::walk;
pub use weights::{count_weights, walk_weights};
