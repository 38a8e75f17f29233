// The three laws over whole runs of calls, together on one contract, for any two ternary codings.
#![tactic(auto)]

ghost use Rattle.std.specs.Prelude.{◌≡◌};
ghost use Rattle.laws.specs.Runs.{Together};

use coding::{Coding, Ternary};

// The number of laws over whole runs, all of which hold: equal rows exactly when equal spans; check digits, remainders
// and cosets agree; a result is the permanent, and comes exactly when no share is missing.
pub fn together<C: Ternary, D: Ternary>() -> usize
    ensures count { result ≡ 3 }
    ensures laws { Together C.Coding D.Coding }
{
    3
}
