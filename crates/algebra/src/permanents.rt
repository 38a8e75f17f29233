// Permanents modulo 3 by Ryser's formula: its laws, and the steps of the Gray code that a walk through its terms takes.
ghost use Rattle.std.specs.Prelude.{◌≡◌, ℕ, ◌+◌, ◌^◌, ◌<◌, ◌≤◌, Decides};
ghost use Rattle.algebra.specs.Gray.{gray_code, bit, Toggles};
ghost use Rattle.algebra.specs.Ryser.{PermanentLaws};

// The number of laws of permanents, all of which hold.
pub fn permanent_laws() -> usize
    ensures count { result ≡ 7 }
    ensures laws { PermanentLaws }
{
    7
}

// The Gray code of a position.
pub fn gray(i: u64) -> u64
    ensures { result ≡ gray_code i }
{
    i ^ (i >> 1)
}

// The row that enters or leaves on the step to the position `next`; no step leads to 0, where the answer is 64.
pub fn toggled_row(next: u64) -> u32
    ensures none { next ≡ 0 → result ≡ 64 }
    ensures toggles { (n i : ℕ) → next ≡ i + 1 → next < 2 ^ n → n ≤ 64 → (result < n) × Toggles result (gray_code i) (gray_code next) }
{
    next.trailing_zeros()
}

// Whether the code chooses the row; no code does from row 64 on.
pub fn chooses(g: u64, j: u32) -> bool
    ensures { Decides result (bit j g ≡ 1) }
{
    j < 64 && (g >> j) & 1 == 1
}
