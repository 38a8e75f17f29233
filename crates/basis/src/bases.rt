// A basis over rows that the caller lends: makings, vectors taken in, and questions.
ghost use Rattle.std.specs.Prelude.{◌≡◌, ◌+◌, ◌<◌, ◌≤◌, ◌⊎◌, List, [], ◌∷◌, length, take, drop, IfOk, codes, Decides, MatchResult, OnErr, slice_index_or};
ghost use Rattle.std.specs.List.{All};
ghost use Rattle.algebra.specs.Vector.{Vector, Long, zeros};
ghost use Rattle.algebra.specs.Space.{Comb};
ghost use Rattle.coding.specs.Lengths.{InRange};
ghost use Rattle.coding.specs.Refusals.{number_of};
ghost use Rattle.basis.specs.Form.{meant_rows};
ghost use Rattle.basis.specs.Words.{word_of};
ghost use Rattle.coding.specs.Makings.{Unless};
ghost use Rattle.basis.specs.Answers.{NotMade, Beyond, Tells, Remains, WroteDual};

use crate::duals::write_dual;
use crate::rows::{insert, is_zero, left_over};
use crate::sizes::Sizes;
use crate::taken::Taken;
use coding::{Coding, Refusal, check_length, check_long, check_place, check_room};

// The first `rank` rows are the normal form of what was taken in, and those from there up to the length are zero. A
// basis whose making was refused is void: it keeps the refusal, has no length and leaves the rows alone.
// Which vectors it stands for is no field: a ghost field says only what the others determine. So clauses speak of any.
// The sizes stand beside the answer of the making and not inside, where every clause would have to take it apart.
// The type asks no coding of C, so contracts name it without one.
#[derive(Drop)]
pub struct Basis<'a, C> {
    rows: &'a mut [C],
    sizes: Sizes,
    making: Result<(), Refusal>,
    ghost room: { sizes.length ≤ length rows.now },
}

// Sets all rows to zero.
fn set_to_zero<C: Coding>(rows: &mut [C])
    ensures { All (λ x. (C.Coding.meant x ≡ zeros C.Coding.field) × C.Coding.canonical x) rows.new }
{
    // `fill` asks that a clone cannot fail, which a coding does not say.
    for row in rows.iter_mut() {
        *row = C::zero();
    }
}

// Whether a basis of length n can be made over so many rows. The length is checked before the rows.
pub(crate) fn can_make<C: Coding>(n: usize, rows: usize) -> Result<(), Refusal>
    ensures { MatchResult result (λ _. InRange C.Coding.width n × (n ≤ rows)) (NotMade C.Coding.width n rows) }
{
    check_length(n, C::width())?;
    check_room(n, rows)
}

impl<'a, C: Coding> Basis<'a, C> {
    ghost use Rattle.basis.specs.Stands.{Stands, Kept, Same, NoRoom};

    // A basis of no vectors yet, of length n, in the first n rows.
    pub fn make(rows: &'a mut [C], n: usize) -> Basis<'a, C>
        ensures made { MatchResult result.making
            (λ _. Stands C.Coding result [] × (result.sizes.length ≡ n))
            (λ e. NotMade C.Coding.width n (length rows.old) e × (result.rows.now ≡ rows.old)) }
        ensures empty { result.sizes.rank ≡ 0 }
        ensures beyond { drop n result.rows.now ≡ drop n rows.old }
        ensures lent { result.rows.ghost_name ≡ rows.entry.ghost_name }
    {
        let making = can_make::<C>(n, rows.len());
        let length = if making.is_ok() { n } else { 0 };
        set_to_zero(&mut rows[..length]);
        Basis {
            rows,
            sizes: Sizes { length, rank: 0 },
            making,
        }
    }

    // Whether it was made, or the refusal of its making.
    pub fn made(&self) -> Result<(), Refusal>
        ensures { result ≡ self.now.making }
    {
        self.making
    }

    // How many rows hold what was taken in.
    pub fn rank(&self) -> Result<usize, Refusal>
        ensures { Unless self.now.making result (λ k. k ≡ self.now.sizes.rank) (λ _. ⊥) }
    {
        self.made()?;
        Ok(self.sizes.rank)
    }

    // Takes a vector of the basis's length in.
    pub fn take_in(&mut self, vector: C) -> Result<Taken, Refusal>
        ensures answer { Unless self.old.making result
            (λ _. Long C.Coding.field self.old.sizes.length (C.Coding.meant vector))
            (λ e. Beyond C.Coding.field self.old.sizes.length (C.Coding.meant vector) e
            ⊎ ((number_of e ≡ 8) × Long C.Coding.field self.old.sizes.length (C.Coding.meant vector) × NoRoom self.old)) }
        ensures refused { OnErr result (Same self.old self.new) }
        ensures known { IfOk result (λ t. word_of t ≡ codes "known" → Same self.old self.new) }
        ensures grown { IfOk result (λ t. word_of t ≡ codes "grown" → self.new.sizes.rank ≡ self.old.sizes.rank + 1) }
        ensures stands { (vs : List (Vector C.Coding.field)) → Stands C.Coding self.old vs
            → MatchResult result (λ t. Tells C.Coding.field vs (C.Coding.meant vector) t × Stands C.Coding self.new (C.Coding.meant vector ∷ vs)) (λ e. number_of e ≡ 11) }
        ensures kept { Kept self.old self.new }
    {
        self.made()?;
        let Sizes { length, rank } = self.sizes;
        check_long(vector, length)?;
        let taken = insert(&mut self.rows[..length], rank, vector)?;
        if let Taken::Grown = taken {
            self.sizes.rank += 1;
        }
        Ok(taken)
    }

    // Drops all that was taken in.
    pub fn clear(&mut self) -> Result<(), Refusal>
        ensures answer { Unless self.old.making result
            (λ _. self.new.sizes.rank ≡ 0) (λ _. ⊥) }
        ensures refused { OnErr result (Same self.old self.new) }
        ensures stands { (vs : List (Vector C.Coding.field)) → Stands C.Coding self.old vs
            → MatchResult result (λ _. Stands C.Coding self.new []) (λ _. ⊥) }
        ensures kept { Kept self.old self.new }
    {
        self.made()?;
        let length = self.sizes.length;
        set_to_zero(&mut self.rows[..length]);
        self.sizes.rank = 0;
        Ok(())
    }

    // The row of a number below the length; from the rank on it is zero.
    pub fn row(&self, number: usize) -> Result<C, Refusal>
        ensures answer { Unless self.now.making result
            (λ x. (number < self.now.sizes.length) × (number < length self.now.rows.now) × ((d : C) → x ≡ slice_index_or self.now.rows.now number d))
            (λ e. (number_of e ≡ 9) × (self.now.sizes.length ≤ number)) }
        ensures stands { (vs : List (Vector C.Coding.field)) → Stands C.Coding self.now vs
            → MatchResult result (λ x. C.Coding.canonical x) (λ _. self.now.sizes.length ≤ number) }
    {
        self.made()?;
        check_place(number, self.sizes.length)?;
        Ok(self.rows[number])
    }

    // What is left of a vector: it differs from the vector by a combination, and holds 0 at every lead.
    pub fn remainder(&self, vector: C) -> Result<C, Refusal>
        ensures answer { Unless self.now.making result
            (λ x. Long C.Coding.field self.now.sizes.length (C.Coding.meant vector) × C.Coding.canonical x)
            (Beyond C.Coding.field self.now.sizes.length (C.Coding.meant vector)) }
        ensures stands { (vs : List (Vector C.Coding.field)) → Stands C.Coding self.now vs
            → IfOk result (λ x. Remains C.Coding.field self.now.sizes.length (meant_rows C.Coding (take self.now.sizes.rank self.now.rows.now)) vs (C.Coding.meant vector) (C.Coding.meant x)) }
    {
        self.made()?;
        check_long(vector, self.sizes.length)?;
        Ok(left_over(&self.rows[..self.sizes.rank], vector))
    }

    // Whether a vector is a combination of what was taken in.
    pub fn contains(&self, vector: C) -> Result<bool, Refusal>
        ensures answer { Unless self.now.making result
            (λ _. Long C.Coding.field self.now.sizes.length (C.Coding.meant vector))
            (Beyond C.Coding.field self.now.sizes.length (C.Coding.meant vector)) }
        ensures stands { (vs : List (Vector C.Coding.field)) → Stands C.Coding self.now vs
            → IfOk result (λ b. Decides b (Comb C.Coding.field vs (C.Coding.meant vector))) }
    {
        Ok(is_zero(self.remainder(vector)?))
    }

    // Writes the normal form of the dual into the first output rows, and gives their number: the length less the rank.
    pub fn dual(&self, output: &mut [C]) -> Result<usize, Refusal>
        ensures answer { Unless self.now.making result
            (λ _. self.now.sizes.length ≤ length output.old + self.now.sizes.rank)
            (λ e. (number_of e ≡ 8) × (length output.old + self.now.sizes.rank < self.now.sizes.length)) }
        ensures refused { OnErr result (output.new ≡ output.old) }
        ensures stands { (vs : List (Vector C.Coding.field)) → Stands C.Coding self.now vs
            → IfOk result (WroteDual C.Coding self.now.sizes.length self.now.sizes.rank vs output.old output.new) }
    {
        self.made()?;
        let Sizes { length, rank } = self.sizes;
        check_room(length - rank, output.len())?;
        Ok(write_dual(&self.rows[..rank], length, output))
    }
}
