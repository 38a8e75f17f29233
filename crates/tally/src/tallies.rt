// A tally over rows that the caller lends: makings, shares worked and struck, and the result.
ghost use Rattle.std.specs.Prelude.{◌≡◌, ℕ, ◌%◌, ◌^◌, ◌<◌, ◌≤◌, Bool, true, false, ◌⊎◌, length, IfOk, Some, None, MatchResult, ◌≢◌, slice_index_or, slice_set};
ghost use Rattle.std.specs.Result.{ForOk};
ghost use Rattle.std.specs.List.{range_with_len, HoldsAt};
ghost use Rattle.algebra.specs.Vector.{zeros};
ghost use Rattle.coding.specs.Lengths.{InRange};
ghost use Rattle.algebra.specs.Permanent.{permanent, sum_over};
ghost use Rattle.coding.specs.Refusals.{number_of};
ghost use Rattle.tally.specs.Booking.{is_booked, digit_of, booked, struck, total_of, AllBooked, Missing};
ghost use Rattle.tally.specs.Matrix.{matrix, share_digit};
ghost use Rattle.tally.specs.Makings.{Makes, NotMade};

use crate::shares::Matrix;
use crate::sizes::{Sizes, check_size};
use crate::tables::{Entry, Table};
use coding::{Coding, Refusal, Ternary, all_long, check_place, check_room};

// The first rows are the matrix, and the row after them stays zero. A tally whose making was refused is void: it has
// the refusal and leaves the rows alone.
// Which calls led to its bookings is no field, so clauses speak of whatever bookings it stands for. The sizes stand beside
// the answer of the making and not inside, where every clause would have to take it apart.
#[derive(Drop)]
pub struct Tally<'a, C: Ternary> {
    rows: &'a mut [C],
    sizes: Sizes,
    table: Table,
    making: Result<(), Refusal>,
    // Of a tally that was made, the matrix has a size in range, and the row after it is zero.
    ghost range: { ForOk making (λ _. InRange C.Coding.width sizes.size) },
    ghost room: { ForOk making (λ _. sizes.size < length rows.now) },
    ghost spare: { ForOk making (λ _. HoldsAt (λ x. C.Coding.meant x ≡ zeros C.Coding.field) rows.now sizes.size) },
    // A booked entry holds the digit of its share, and no entry beyond the last share is booked.
    ghost whole: { length table.entries ≡ 64 },
    ghost digits: { (k d : ℕ) → slice_index_or table.entries k None ≡ Some d → d ≡ share_digit (matrix C.Coding rows.now) sizes.size sizes.splits k },
    ghost inside: { (k : ℕ) → 2 ^ sizes.splits ≤ k → slice_index_or table.entries k None ≡ None },
}

// The sum, modulo 3, of the digits of the entries; refused while one of them is empty.
fn total(entries: &[Entry]) -> Result<u8, Refusal>
    ensures { MatchResult result
        (λ d. ((k : ℕ) → k < length entries.now → is_booked (slice_index_or entries.now k None) ≡ true)
        × (d ≡ sum_over (λ k. digit_of (slice_index_or entries.now k None)) (range_with_len 0 (length entries.now)) % 3))
        (λ e. (number_of e ≡ 15) × ((k : ℕ) × (k < length entries.now) × (is_booked (slice_index_or entries.now k None) ≡ false))) }
{
    let mut sum = 0;
    for entry in entries {
        let digit = entry.ok_or(Refusal::ShareMissing)?;
        sum = (sum + digit % 3) % 3;
    }
    Ok(sum)
}

// Whether a tally can be made of the rows. Checked in this order: size, splits, room, and the length of each row.
fn can_make<C: Ternary>(rows: &[C], size: usize, splits: usize) -> Result<(), Refusal>
    ensures { MatchResult result
        (λ _. Makes C.Coding size splits rows.now)
        (NotMade C.Coding size splits rows.now) }
{
    check_size::<C>(size)?;
    if splits > 6 || splits > size {
        return Err(Refusal::SplitsOutOfRange);
    }
    check_room(size + 1, rows.len())?;
    if !all_long(&rows[..size], size) {
        return Err(Refusal::BeyondLength);
    }
    Ok(())
}

impl<'a, C: Ternary> Tally<'a, C> {
    ghost use Rattle.coding.specs.Makings.{Unless};
    ghost use Rattle.tally.specs.Stands.{Stands, Kept};

    // A tally of the matrix in the first rows, in 2^splits shares, none of them booked. The row after them is set to zero.
    pub fn make(rows: &'a mut [C], size: usize, splits: usize) -> Tally<'a, C>
        ensures made { MatchResult result.making
            (λ _. Stands result (λ _. false) × (result.sizes.size ≡ size) × (result.sizes.splits ≡ splits)
            × Makes C.Coding size splits rows.old
            × ((k : ℕ) (d : C) → (k ≢ size) → slice_index_or result.rows.now k d ≡ slice_index_or rows.old k d))
            (λ e. NotMade C.Coding size splits rows.old e × (result.rows.now ≡ rows.old)) }
        ensures lent { result.rows.ghost_name ≡ rows.entry.ghost_name }
    {
        let table = Table {
            entries: [None; 64],
        };
        // A void tally has other numbers and leaves the rows alone, so each of the two is written out.
        if let Err(refusal) = can_make(rows, size, splits) {
            return Tally {
                rows,
                sizes: Sizes { size: 0, splits: 0 },
                table,
                making: Err(refusal),
            };
        }
        rows[size] = C::zero();
        Tally {
            rows,
            sizes: Sizes { size, splits },
            table,
            making: Ok(()),
        }
    }

    // Whether it was made, or the refusal of its making.
    pub fn made(&self) -> Result<(), Refusal>
        ensures { result ≡ self.now.making }
    {
        self.making
    }

    // The digit of a share, of a tally that was made.
    fn digit_of(&self, share: u8) -> u8
        requires { (self.now.making ≡ Ok tt) × (share < 2 ^ self.now.sizes.splits) }
        ensures { result ≡ share_digit (matrix C.Coding self.now.rows.now) self.now.sizes.size self.now.sizes.splits share }
    {
        let rows = &self.rows[..self.sizes.size];
        Matrix { rows }.share_digit(self.sizes.splits, share)
    }

    // Works a share: books it with its digit, and gives that.
    pub fn work(&mut self, share: u8) -> Result<u8, Refusal>
        ensures answer { Unless self.old.making result
            (λ _. (share < 2 ^ self.old.sizes.splits) × (is_booked (slice_index_or self.old.table.entries share None) ≡ false))
            (λ e. ((number_of e ≡ 9) × (2 ^ self.old.sizes.splits ≤ share))
            ⊎ ((number_of e ≡ 13) × (share < 2 ^ self.old.sizes.splits) × (is_booked (slice_index_or self.old.table.entries share None) ≡ true))) }
        ensures table { MatchResult result
            (λ d. self.new.table.entries ≡ slice_set self.old.table.entries share (Some d))
            (λ _. self.new.table.entries ≡ self.old.table.entries) }
        ensures digit { IfOk result (λ d. d ≡ share_digit (matrix C.Coding self.old.rows.now) self.old.sizes.size self.old.sizes.splits share) }
        ensures stands { (b : ℕ → Bool) → Stands self.old b → Stands self.new (booked self.old.sizes.splits b share) }
        ensures kept { Kept self.old self.new }
    {
        self.made()?;
        let place = share as usize;
        check_place(place, self.sizes.share_count())?;
        if self.table.entries[place].is_some() {
            return Err(Refusal::ShareBooked);
        }
        let digit = self.digit_of(share);
        self.table.entries[place] = Some(digit);
        Ok(digit)
    }

    // Strikes a booked share: its entry is empty again.
    pub fn strike(&mut self, share: u8) -> Result<(), Refusal>
        ensures answer { Unless self.old.making result
            (λ _. (share < 2 ^ self.old.sizes.splits) × (is_booked (slice_index_or self.old.table.entries share None) ≡ true))
            (λ e. ((number_of e ≡ 9) × (2 ^ self.old.sizes.splits ≤ share))
            ⊎ ((number_of e ≡ 14) × (share < 2 ^ self.old.sizes.splits) × (is_booked (slice_index_or self.old.table.entries share None) ≡ false))) }
        ensures table { MatchResult result
            (λ _. self.new.table.entries ≡ slice_set self.old.table.entries share None)
            (λ _. self.new.table.entries ≡ self.old.table.entries) }
        ensures stands { (b : ℕ → Bool) → Stands self.old b
            → Stands self.new (struck b share) }
        ensures kept { Kept self.old self.new }
    {
        // The first lines of `work` again: behind a method of their own, it is not known what the table holds then.
        self.made()?;
        let place = share as usize;
        check_place(place, self.sizes.share_count())?;
        if self.table.entries[place].is_none() {
            return Err(Refusal::ShareNotBooked);
        }
        self.table.entries[place] = None;
        Ok(())
    }

    // The sum of the booked digits, modulo 3, once no share is missing: the permanent of the matrix.
    pub fn result(&self) -> Result<u8, Refusal>
        ensures answer { Unless self.now.making result
            (λ d. AllBooked self.now.sizes.splits (λ k. is_booked (slice_index_or self.now.table.entries k None)) × (d ≡ total_of self.now.sizes.splits self.now.table.entries))
            (λ e. (number_of e ≡ 15) × Missing self.now.sizes.splits (λ k. is_booked (slice_index_or self.now.table.entries k None))) }
        ensures stands { (b : ℕ → Bool) → Stands self.now b
            → MatchResult result
            (λ d. AllBooked self.now.sizes.splits b × (d ≡ permanent (matrix C.Coding self.now.rows.now) self.now.sizes.size % 3))
            (λ e. (number_of e ≡ 15) × Missing self.now.sizes.splits b) }
    {
        self.made()?;
        total(&self.table.entries[..self.sizes.share_count()])
    }
}
