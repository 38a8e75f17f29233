// The digit of one share: its positions are walked through with one row added or subtracted at each.
ghost use Rattle.std.specs.Prelude.{◌≡◌, ◌+◌, ◌-◌, ◌*◌, ◌%◌, ◌^◌, ◌<◌, ◌≤◌, length};
ghost use Rattle.algebra.specs.Field.{value};
ghost use Rattle.algebra.specs.Vector.{product};
ghost use Rattle.coding.specs.Lengths.{InRange};
ghost use Rattle.std.specs.List.{range_with_len};
ghost use Rattle.algebra.specs.Permanent.{sum_over};
ghost use Rattle.algebra.specs.Gray.{gray_code, term};
ghost use Rattle.tally.specs.Matrix.{matrix, share_digit, Sums};

use algebra::{chooses, gray, toggled_row};
use coding::{Coding, Ternary};

// The rows of a square matrix, as many as a tally can have.
#[derive(Drop)]
pub(crate) struct Matrix<'a, C: Ternary> {
    pub(crate) rows: &'a [C],
    ghost range: { InRange C.Coding.width (length rows.now) },
    ghost small: { length rows.now ≤ 60 },
}

impl<'a, C: Ternary> Matrix<'a, C> {
    // The sum of the rows that a code chooses.
    fn chosen_sum(&self, code: u64) -> C
        ensures { Sums C.Coding self.now.rows.now (length self.now.rows.now) code (C.Coding.meant result) }
    {
        let mut sum = C::zero();
        for (j, row) in self.rows.iter().enumerate() {
            if chooses(code, j as u32) {
                sum = sum.sum(*row);
            }
        }
        sum
    }

    // The running sum at a position, from that at the position before: one row enters or leaves. Sum and position are no
    // struct: what is known of them is about the rows, so it would hold the matrix too.
    fn mended(&self, sum: C, position: u64) -> C
        requires inside { (0 < position) × (position < 2 ^ length self.now.rows.now) }
        requires before { Sums C.Coding self.now.rows.now (length self.now.rows.now) (gray_code (position - 1)) (C.Coding.meant sum) }
        ensures { Sums C.Coding self.now.rows.now (length self.now.rows.now) (gray_code position) (C.Coding.meant result) }
    {
        let rows = self.rows;
        let toggled = toggled_row(position);
        let row = rows[toggled as usize];
        if chooses(gray(position), toggled) {
            sum.sum(row)
        } else {
            sum.difference(row)
        }
    }

    // The product of the digits of a sum, one for each row.
    fn product(&self, sum: C) -> u8
        ensures { result ≡ value (product C.Coding.field (length self.now.rows.now) (C.Coding.meant sum)) }
    {
        sum.full_product(self.rows.len()).unwrap_or(0)
    }

    // The term of a position, modulo 3, from the running sum there.
    fn term(&self, sum: C, position: u64) -> u8
        requires { Sums C.Coding self.now.rows.now (length self.now.rows.now) (gray_code position) (C.Coding.meant sum) }
        ensures { result ≡ term (matrix C.Coding self.now.rows.now) (length self.now.rows.now) position % 3 }
    {
        let product = self.product(sum);
        let parity = (self.rows.len() as u64 % 2 + position % 2) % 2;
        if parity == 1 {
            2 * product % 3
        } else {
            product
        }
    }

    // The sum, modulo 3, of the terms at the positions from `start` up to `end`.
    fn sum_of_terms(&self, start: u64, end: u64) -> u8
        requires { (start < end) × (end ≤ 2 ^ length self.now.rows.now) }
        ensures { result ≡ sum_over (term (matrix C.Coding self.now.rows.now) (length self.now.rows.now)) (range_with_len start (end - start)) % 3 }
    {
        let mut sum = self.chosen_sum(gray(start));
        let mut total = self.term(sum, start);
        for position in start + 1..end {
            sum = self.mended(sum, position);
            total = (total + self.term(sum, position)) % 3;
        }
        total
    }

    // How many positions each of 2^s shares has.
    fn share_size(&self, s: usize) -> u64
        requires { s ≤ length self.now.rows.now }
        ensures { result ≡ 2 ^ (length self.now.rows.now - s) }
    {
        1 << (self.rows.len() - s)
    }

    // The digit of share k of 2^s.
    pub(crate) fn share_digit(&self, s: usize, k: u8) -> u8
        requires { (s ≤ length self.now.rows.now) × (k < 2 ^ s) }
        ensures { result ≡ share_digit (matrix C.Coding self.now.rows.now) (length self.now.rows.now) s k }
    {
        let size = self.share_size(s);
        let start = k as u64 * size;
        self.sum_of_terms(start, start + size)
    }
}
