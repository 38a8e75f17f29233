// The worked figures: one table with one proof, and tests that run the calls on the same figures and at the bounds of bases, tallies and sheets.
#![tactic(auto)]

ghost use Rattle.std.specs.Prelude.{◌≡◌, length};
ghost use Rattle.figures.specs.Table.{figures, Hold};

#[cfg(test)]
mod basis_tests;
#[cfg(test)]
mod sheet_tests;
#[cfg(test)]
mod tally_tests;
#[cfg(test)]
mod tests;

// The number of figures in the table, all of which are as stated.
pub fn hold() -> usize
    ensures count { result ≡ length figures }
    ensures figures { Hold }
{
    9
}
