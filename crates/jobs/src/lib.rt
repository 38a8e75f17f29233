// What programs do with a sheet, as library functions: the normal form of its rows, its permanent, and the lines of a fault.
#![tactic(auto)]

mod faults;
mod normals;
mod permanents;
mod sizes;

pub use coding::first_of as first_bytes;
pub use faults::fault_lines;
pub use normals::normal;
pub use permanents::permanent;
pub use sizes::{MOST_READ, MOST_WRITTEN, Permanent};
