// Digits modulo 3, as numbers that a caller gives.
ghost use Rattle.std.specs.Prelude.{◌≡◌, ◌<◌, ◌≤◌, MatchResult};
ghost use Rattle.algebra.specs.Field.{of, value};
ghost use Rattle.algebra.specs.Modulo.{f3};
ghost use Rattle.coding.specs.Refusals.{number_of};

use coding::Refusal;

// Whether a number is a digit.
pub(crate) fn check_digit(digit: u8) -> Result<(), Refusal>
    ensures { MatchResult result (λ _. digit < 3) (λ e. (number_of e ≡ 10) × (3 ≤ digit)) }
{
    if digit > 2 {
        return Err(Refusal::DigitTooLarge);
    }
    Ok(())
}

// Modulo 3 each digit but 0 is its own inverse.
pub(crate) fn inverse(digit: u8) -> Result<u8, Refusal>
    ensures { MatchResult result
        (λ i. (digit < 3) × (i ≡ value (f3.inv (of f3 digit))))
        (λ e. (number_of e ≡ 10) × (3 ≤ digit)) }
{
    check_digit(digit)?;
    Ok(digit)
}
