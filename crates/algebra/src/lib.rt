// Mathematics: digits of a small field, vectors of them, the successor order, spaces and permanents. specs/ defines, proofs/ proves.
// The only code is for the laws, which stand on functions of their own, and for the steps of the Gray code.
#![tactic(auto)]

mod permanents;
mod spaces;

pub use permanents::{chooses, gray, permanent_laws, toggled_row};
pub use spaces::linear_laws;
