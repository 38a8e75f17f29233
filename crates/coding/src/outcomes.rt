// What a call came to, as programs print it.
ghost use Rattle.std.specs.Prelude.{◌≡◌, Err, IsOkAnd, MatchResult, codes};
ghost use Rattle.coding.specs.Outcomes.{printed};

use crate::refusals::Refusal;
use std::fmt;
use std::fmt::{Display, Formatter, Write};

// Prints what was answered, or by which refusal the call was refused.
#[derive(Drop)]
pub struct Outcome<T> {
    pub answer: Result<T, Refusal>,
}

impl Outcome<&'static str> {
    // Says that a call passes, and not what it answered.
    pub fn passes<T: Drop>(answer: Result<T, Refusal>) -> Outcome<&'static str>
        ensures { MatchResult answer
            (λ _. IsOkAnd result.answer (λ text. text.now ≡ codes "passes"))
            (λ e. result.answer ≡ Err e) }
    {
        Outcome {
            answer: answer.map(|_| "passes"),
        }
    }
}

impl<T: Display> Display for Outcome<T> {
    ghost output = { λ o. printed T.output o.answer };

    fn fmt<W: Write>(&self, f: &mut Formatter<W>) -> fmt::Result {
        match &self.answer {
            Ok(answer) => answer.fmt(f),
            Err(refusal) => write!(f, "refused by {refusal}"),
        }
    }
}
