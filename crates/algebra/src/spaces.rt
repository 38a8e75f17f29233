// The laws of linear algebra over a small field, on a contract.
ghost use Rattle.std.specs.Prelude.{◌≡◌};
ghost use Rattle.algebra.specs.Field.{Field};
ghost use Rattle.algebra.specs.Linear.{LinearLaws};

// The number of laws of linear algebra, all of which hold over every small field.
pub fn linear_laws() -> usize
    ensures count { result ≡ 8 }
    ensures laws { (F : Field) → LinearLaws F }
{
    8
}
