// A sheet that keeps every rule, and its value lines as vectors.
ghost use Rattle.sheet.specs.Format.{IsSheet};

use crate::faults::{Fault, Layer};
use coding::{Refusal, Ternary, check_length, check_place};

// The head is the names line with its line feed; the value lines begin after it.
#[derive(Clone, Copy)]
pub struct Opened<'a> {
    pub(crate) text: &'a [u8],
    pub(crate) head: &'a [u8],
    pub(crate) names: usize,
    pub(crate) lines: usize,
    ghost of_sheet: { ∥ IsSheet text.now head.now names lines ∥₁ },
}

impl<'a> Opened<'a> {
    ghost use Rattle.std.specs.Prelude.{◌≡◌, ℕ, ◌+◌, ◌*◌, ◌<◌, [], length, MatchResult, slice_index, slice_index_or};
    ghost use Rattle.coding.specs.Refusals.{number_of};
    ghost use Rattle.sheet.specs.Opened.{rows_of, Readable, VectorOf, Unreadable, LineFault};

    // How many names there are.
    pub fn names(&self) -> usize
        ensures { result ≡ self.now.names }
    {
        self.names
    }

    // How many value lines there are.
    pub fn lines(&self) -> usize
        ensures { result ≡ self.now.lines }
    {
        self.lines
    }

    // The names line with its line feed.
    pub fn head(&self) -> &'a [u8]
        ensures { result.now ≡ self.now.head.now }
    {
        self.head
    }

    // Where the text ends: the place of a refusal that none of its bytes is to blame for.
    pub fn end(&self) -> usize
        ensures { result ≡ length self.now.text.now }
    {
        self.text.len()
    }

    // The value line of a number, as a vector. A fault has the end of the text as its place.
    pub fn line<C: Ternary>(&self, number: usize) -> Result<C, Fault>
        ensures { MatchResult result
            (λ x. Readable C.Coding.width number self.now × VectorOf C.Coding.field (C.Coding.meant x) (slice_index_or (rows_of self.now) number []) × C.Coding.canonical x)
            (λ f. LineFault C.Coding.width number self.now f) }
    {
        // One line, as where a job places a refusal: a function for it would take the end too.
        let end = self.end();
        self.vector(number)
            .map_err(|refusal| Layer::Job.fault(refusal, end))
    }

    // The names are counted before the lines.
    fn vector<C: Ternary>(&self, number: usize) -> Result<C, Refusal>
        ensures { MatchResult result
            (λ x. Readable C.Coding.width number self.now × VectorOf C.Coding.field (C.Coding.meant x) (slice_index_or (rows_of self.now) number []) × C.Coding.canonical x)
            (λ e. Unreadable C.Coding.width number self.now (number_of e)) }
    {
        check_length(self.names, C::width())?;
        check_place(number, self.lines)?;
        let line = self.value_line(number);
        let mut vector = C::zero();
        for place in 0..self.names {
            // Never refused: the place is below the width, and the digit below 3.
            vector = vector.change(place, line[2 * place] - b'0')?;
        }
        Ok(vector)
    }

    // The bytes of a value line: two for each name.
    fn value_line(&self, number: usize) -> &'a [u8]
        requires { number < self.now.lines }
        ensures size { length result.now ≡ 2 * self.now.names }
        ensures digits { (k : ℕ) → k < self.now.names → slice_index result.now (2 * k) ≡ 48 + slice_index (slice_index_or (rows_of self.now) number []) k }
        ensures small { (k : ℕ) → k < self.now.names → slice_index (slice_index_or (rows_of self.now) number []) k < 3 }
    {
        let size = 2 * self.names;
        let start = self.head.len() + number * size;
        &self.text[start..start + size]
    }
}
