// Sheets: the text format that vectors arrive in, its reader and its writer.
#![tactic(auto)]

mod faults;
mod opened;
mod sheets;
mod texts;
mod tokens;
mod writes;

pub use faults::{Fault, Layer};
pub use opened::Opened;
pub use sheets::open;
pub use texts::LONGEST;
pub use writes::write;
