// Two planes with no place left empty, in two words or in one, and the operations that keep them so.
ghost use Rattle.std.specs.Prelude.{◌≡◌, ℕ};
ghost use Rattle.algebra.specs.Field.{minus};
ghost use Rattle.algebra.specs.Modulo.{f3};
ghost use Rattle.codings.specs.TwoPlanes.{digits, Full};
ghost use Rattle.codings.specs.Single.{FullHalves};

// V1 and V2 as they are read: at every place a bit is set in one of them or in both.
#[derive(Clone, Copy)]
pub(crate) struct FullPlanes {
    pub(crate) v1: u64,
    pub(crate) v2: u64,
    ghost full: { Full 64 v1 v2 },
}

// The same in the halves of one word: V1 is the upper half, and V2 the lower.
#[derive(Clone, Copy)]
pub(crate) struct FullWord {
    pub(crate) word: u64,
    ghost full: { FullHalves word },
}

impl FullPlanes {
    // The negated vector has its planes swapped.
    pub(crate) fn negation(self) -> FullPlanes
        ensures { (k : ℕ) → digits 64 result.v1 result.v2 k ≡ f3.neg (digits 64 self.v1 self.v2 k) }
    {
        FullPlanes {
            v1: self.v2,
            v2: self.v1,
        }
    }

    // In six word operations.
    pub(crate) fn sum(self, other: FullPlanes) -> FullPlanes
        ensures { (k : ℕ) → digits 64 result.v1 result.v2 k ≡ f3.add (digits 64 self.v1 self.v2 k) (digits 64 other.v1 other.v2 k) }
    {
        let t1 = self.v1 ^ other.v1;
        let t2 = self.v2 ^ other.v2;
        FullPlanes {
            v1: t2 | (t1 ^ self.v2),
            v2: t1 | (t2 ^ self.v1),
        }
    }

    // Digit times digit, place by place.
    pub(crate) fn product(self, other: FullPlanes) -> FullPlanes
        ensures { (k : ℕ) → digits 64 result.v1 result.v2 k ≡ f3.mul (digits 64 self.v1 self.v2 k) (digits 64 other.v1 other.v2 k) }
    {
        FullPlanes {
            v1: (self.v1 | other.v1) & (self.v2 | other.v2),
            v2: (self.v1 | other.v2) & (self.v2 | other.v1),
        }
    }

    // The sum and the difference, both from ten word operations.
    pub(crate) fn sum_and_difference(self, other: FullPlanes) -> (FullPlanes, FullPlanes)
        ensures sums { (k : ℕ) → digits 64 result.0.v1 result.0.v2 k ≡ f3.add (digits 64 self.v1 self.v2 k) (digits 64 other.v1 other.v2 k) }
        ensures differences { (k : ℕ) → digits 64 result.1.v1 result.1.v2 k ≡ minus f3 (digits 64 self.v1 self.v2 k) (digits 64 other.v1 other.v2 k) }
    {
        let v0 = self.v1 ^ self.v2;
        let w0 = other.v1 ^ other.v2;
        let t1 = v0 ^ other.v1;
        let t2 = v0 ^ other.v2;
        let u1 = w0 ^ self.v1;
        let u2 = w0 ^ self.v2;
        let sum = FullPlanes {
            v1: t1 | u1,
            v2: t2 | u2,
        };
        let difference = FullPlanes {
            v1: t2 | u1,
            v2: t1 | u2,
        };
        (sum, difference)
    }
}
