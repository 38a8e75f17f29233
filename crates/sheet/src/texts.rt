// The text layer: how long a text may be, and which bytes it may hold.
ghost use Rattle.std.specs.Prelude.{◌≤◌, length, MatchResult};
ghost use Rattle.std.specs.List.{AllByRecursion};
ghost use Rattle.sheet.specs.Faults.{Known, TextFault};
ghost use Rattle.sheet.specs.Reading.{IsKind};

use crate::faults::{Fault, Layer};
use coding::Refusal;

// The most bytes that a text may have, read or written.
pub const LONGEST: usize = 65_000;

// What a byte is in a text.
#[derive(Clone, Copy)]
pub enum Kind {
    Letter,
    Digit,
    Blank,
    LineEnd,
    Foreign,
}

impl From<u8> for Kind {
    ghost from_gives = { λ byte kind. IsKind kind byte };

    fn from(byte: u8) -> Kind {
        match byte {
            b'a'..=b'z' => Kind::Letter,
            b'0'..=b'9' => Kind::Digit,
            b' ' => Kind::Blank,
            b'\n' => Kind::LineEnd,
            _ => Kind::Foreign,
        }
    }
}

// Judges the length before any byte, so that a text that is too long is always refused as such.
pub fn judge(text: &[u8]) -> Result<(), Fault>
    ensures { MatchResult result
        (λ _. (length text.now ≤ 65000) × AllByRecursion Known text.now)
        (λ f. TextFault text.now f) }
{
    if text.len() > LONGEST {
        return Err(Layer::Text.fault(Refusal::TextTooLong, LONGEST));
    }
    for (place, byte) in text.iter().enumerate() {
        if let Kind::Foreign = Kind::from(*byte) {
            return Err(Layer::Text.fault(Refusal::ForeignByte, place));
        }
    }
    Ok(())
}
