// The sheet layer: a line of names, then value lines, one digit for each name.
ghost use Rattle.std.specs.Prelude.{◌≡◌, ℕ, ◌+◌, ◌<◌, ◌≤◌, List, [], ◌∷◌, ◌++◌, length, drop, Decides, MatchOption, MatchResult, ◌≢◌, slice_index, slice_index_or};
ghost use Rattle.std.specs.List.{AllByRecursion};
ghost use Rattle.coding.specs.Refusals.{number_of};
ghost use Rattle.sheet.specs.Format.{Name, Names, line};
ghost use Rattle.sheet.specs.Opened.{Opens};
ghost use Rattle.sheet.specs.Writes.{Heads};
ghost use Rattle.sheet.specs.Reading.{WordByte, NameAt, NoName, Headed, spaced, Begins, Lined, LinesFault};

use crate::faults::{Fault, Layer};
use crate::opened::Opened;
use crate::texts;
use crate::tokens::{Break, break_at, word_at};
use coding::Refusal;

// The most letters and digits that a name may have.
const LONGEST_NAME: usize = 8;

// The most names that a sheet may have.
const MOST_NAMES: usize = 64;

// A name, what ends it, and the place after that.
#[derive(Clone, Copy)]
struct Named<'a> {
    word: &'a [u8],
    end: Break,
    next: usize,
}

// How many names there are, and where their line ends.
#[derive(Clone, Copy)]
struct Head {
    names: usize,
    end: usize,
}

// Judges a whole text: its bytes, then its names line, then its value lines in order.
pub fn open(text: &[u8]) -> Result<Opened<'_>, Fault>
    ensures { Opens text.now result }
{
    texts::judge(text)?;
    let head = names_line(text).ok_or(Layer::Sheet.fault(Refusal::BadNames, 0))?;
    let lines = value_lines(text, head)?;
    Ok(Opened {
        text,
        head: &text[..head.end],
        names: head.names,
        lines,
    })
}

// The names line of a text, if it keeps its rule.
fn names_line(text: &[u8]) -> Option<Head>
    ensures { MatchOption result
        ((names : List (List ℕ)) (rest : List ℕ) → Names names → text.now ≢ line names ++ rest)
        (λ h. Headed text.now h) }
{
    let mut next = 0;
    for count in 0..MOST_NAMES {
        let name = name_at(text, next)?;
        if is_among(text, count, name.word) {
            return None;
        }
        match name.end {
            Break::LineEnd => {
                return Some(Head {
                    names: count + 1,
                    end: name.next,
                });
            }
            Break::Blank => next = name.next,
        }
    }
    None
}

// How many names a text has that is one names line with its line end, and nothing more.
pub fn count_names(text: &[u8]) -> Option<usize>
    ensures { MatchOption result
        ((names : List (List ℕ)) → Heads names text.now → ⊥)
        (λ n. (names : List (List ℕ)) × Heads names text.now × (length names ≡ n)) }
{
    let head = names_line(text)?;
    // `then_some` would move the two cases into a lemma.
    if head.end == text.len() {
        Some(head.names)
    } else {
        None
    }
}

// The name that starts at a place, if a blank or a line end follows it. Like a token it is looked for at a place.
fn name_at<'a>(text: &'a [u8], start: usize) -> Option<Named<'a>>
    ensures { MatchOption result (NoName text.now start) (λ n. NameAt text.now start n) }
{
    let word = word_at(text, start)?;
    if !is_name(word) {
        return None;
    }
    let stop = start + word.len();
    let end = break_at(text, stop)?;
    Some(Named {
        word,
        end,
        next: stop + 1,
    })
}

// A name has 1 to 8 letters and digits, a letter first; a word has no other bytes.
fn is_name(word: &[u8]) -> bool
    requires { AllByRecursion WordByte word.now }
    ensures { Decides result (Name word.now) }
{
    matches!(word, [b'a'..=b'z', ..] if word.len() <= LONGEST_NAME)
}

// Whether a word is among the first names of a text; they are walked again, so that nothing has to store them.
fn is_among(text: &[u8], count: usize, word: &[u8]) -> bool
    ensures { (names : List (List ℕ)) (rest : List ℕ) → AllByRecursion Name names → length names ≡ count
        → text.now ≡ spaced names ++ rest
        → Decides result ((k : ℕ) × (k < count) × (slice_index_or names k [] ≡ word.now)) }
{
    let mut next = 0;
    for _ in 0..count {
        let Some(name) = name_at(text, next) else {
            return false;
        };
        if name.word == word {
            return true;
        }
        next = name.next;
    }
    false
}

// How many value lines there are after the names line.
fn value_lines(text: &[u8], head: Head) -> Result<usize, Fault>
    requires { Headed text.now head }
    ensures { MatchResult result
        (λ n. Lined head.names (drop head.end text.now) n [])
        (λ f. LinesFault head.names text.now head.end f) }
{
    let size = 2 * head.names;
    // Counted by hand: the number is the answer, and places the fault.
    let mut lines = 0;
    for line in text[head.end..].chunks(size) {
        if !begins_with_values(line, head.names) {
            return Err(Layer::Sheet.fault(Refusal::BadValues, head.end + lines * size));
        }
        lines += 1;
    }
    Ok(lines)
}

// Whether a value line of so many digits begins a text.
fn begins_with_values(text: &[u8], names: usize) -> bool
    requires { 0 < names }
    ensures { Decides result (Begins names text.now) }
{
    // Moved by hand, here and where names are walked: where the next begins is known only after the last.
    let mut rest = text;
    for _ in 1..names {
        if !begins_with_digit(rest, b' ') {
            return false;
        }
        rest = &rest[2..];
    }
    begins_with_digit(rest, b'\n')
}

// Whether a digit 0, 1 or 2 and then a given byte begin a text.
fn begins_with_digit(text: &[u8], after: u8) -> bool
    ensures { Decides result ((d : ℕ) × (rest : List ℕ) × (d < 3) × (text.now ≡ (48 + d) ∷ after ∷ rest)) }
{
    match text {
        [b'0'..=b'2', next, ..] if *next == after => true,
        _ => false,
    }
}
