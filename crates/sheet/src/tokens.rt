// Cuts a text into words, blanks and line ends. A token is told with its place, so these functions take the text and a
// place.
ghost use Rattle.std.specs.Prelude.{◌≡◌, ℕ, ◌<◌, ◌≤◌, length, MatchOption, slice_index};
ghost use Rattle.sheet.specs.Faults.{Known};
ghost use Rattle.sheet.specs.Reading.{WordByte, IsToken, WordAt, NoWord, BreakAt, NoBreak};

use crate::texts::Kind;

// A word is a longest run of letters and digits, and borrows its part of the text.
#[derive(Clone, Copy)]
pub enum Token<'a> {
    Word(&'a [u8]),
    Blank,
    LineEnd,
}

// A token and the place in bytes at which it starts.
#[derive(Clone, Copy)]
pub struct Placed<'a> {
    pub token: Token<'a>,
    pub place: usize,
}

// What ends a word: a blank, or the line end after the last word of a line.
#[derive(Clone, Copy)]
pub enum Break {
    Blank,
    LineEnd,
}

// The token that starts at a place; absent at the end of the text and at a foreign byte.
pub fn token_at<'a>(text: &'a [u8], place: usize) -> Option<Placed<'a>>
    ensures { MatchOption result
        (place < length text.now → Known (slice_index text.now place) → ⊥)
        (λ p. (p.place ≡ place) × (place < length text.now) × IsToken text.now place p.token) }
{
    let token = match Kind::from(*text.get(place)?) {
        Kind::Letter | Kind::Digit => Token::Word(&text[place..word_end(text, place)]),
        Kind::Blank => Token::Blank,
        Kind::LineEnd => Token::LineEnd,
        Kind::Foreign => return None,
    };
    Some(Placed { token, place })
}

// The word that starts at a place.
pub fn word_at<'a>(text: &'a [u8], start: usize) -> Option<&'a [u8]>
    ensures { MatchOption result (NoWord text.now start) (λ w. WordAt text.now start w.now) }
{
    let first = token_at(text, start)?;
    match first.token {
        Token::Word(word) => Some(word),
        Token::Blank | Token::LineEnd => None,
    }
}

// The blank or line end that stands at a place.
pub fn break_at(text: &[u8], start: usize) -> Option<Break>
    ensures { MatchOption result (NoBreak text.now start) (λ b. BreakAt text.now start b) }
{
    let found = token_at(text, start)?;
    match found.token {
        Token::Blank => Some(Break::Blank),
        Token::LineEnd => Some(Break::LineEnd),
        Token::Word(_) => None,
    }
}

// Where the word that starts at a place ends.
fn word_end(text: &[u8], start: usize) -> usize
    requires { (start < length text.now) × WordByte (slice_index text.now start) }
    ensures within { (start < result) × (result ≤ length text.now) }
    ensures word { (k : ℕ) → start ≤ k → k < result → WordByte (slice_index text.now k) }
    ensures ends { result < length text.now → WordByte (slice_index text.now result) → ⊥ }
{
    for (length, byte) in text[start..].iter().enumerate() {
        match Kind::from(*byte) {
            Kind::Letter | Kind::Digit => {}
            Kind::Blank | Kind::LineEnd | Kind::Foreign => return start + length,
        }
    }
    text.len()
}
