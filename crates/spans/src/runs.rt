// Whole runs of calls: whether two come to the same rows, and whether two vectors lie in one coset.
// Each list has refused calls, a clear, a dual without room or questions among the calls that count.
use basis::{Call, Compared, Question, same_coset, same_rows};
use coding::{Coding, Refusal};
use codings::{Planes, Signs, Single};
use std::io;

pub fn print(rt: &HostRuntime) -> io::Result<()> {
    for (first, second) in [("011", "110"), ("102", "110"), ("102", "122")] {
        rows_line(rt, first, second)?;
    }
    for other in ["001", "002"] {
        coset_line(rt, other)?;
    }
    Ok(())
}

// The vector with the digits of a text, place 0 first.
fn vector<C: Coding>(text: &str) -> Result<C, Refusal> {
    let mut v = C::zero();
    for (place, byte) in text.as_bytes().iter().enumerate() {
        v = v.change(place, byte.wrapping_sub(b'0'))?;
    }
    Ok(v)
}

fn word(equal: bool) -> &'static str {
    if equal { "equal" } else { "different" }
}

fn rows_line(rt: &HostRuntime, first: &str, second: &str) -> io::Result<()> {
    print!(rt; "planes 110 011, signs {first} {second}: ")?;
    match rows_agree(first, second) {
        Ok(equal) => println!(rt; "rows {}", word(equal)),
        Err(refusal) => println!(rt; "refused by {refusal}"),
    }
}

// Planes accept 110 and 011, and signs the two vectors given.
fn rows_agree(first: &str, second: &str) -> Result<bool, Refusal> {
    let calls = [
        Call::TakeIn(vector("210")?),
        Call::Clear,
        Call::TakeIn(vector("110")?),
        Call::TakeIn(vector("0001")?),
        Call::Dual(1),
        Call::Ask(Question::Row(3)),
        Call::TakeIn(vector("011")?),
        Call::Ask(Question::Remainder(vector("122")?)),
    ];
    let other_calls = [
        Call::TakeIn(vector(first)?),
        Call::Dual(3),
        Call::Ask(Question::Rank),
        Call::TakeIn(vector(second)?),
        Call::Dual(0),
        Call::Ask(Question::Contains(vector("0001")?)),
    ];
    same_rows(
        3,
        &mut [Planes::zero(); 3],
        &calls,
        &mut [Planes::zero(); 3],
        &mut [Signs::zero(); 3],
        &other_calls,
        &mut [Signs::zero(); 3],
    )
}

fn coset_line(rt: &HostRuntime, other: &str) -> io::Result<()> {
    print!(rt; "single 110 011, 122 and {other}: ")?;
    let mut first_digits = [0; 3];
    let mut second_digits = [0; 3];
    match compared(other, &mut first_digits, &mut second_digits) {
        Ok(found) => {
            // The dual of two rows of length 3 has one row.
            let first = first_digits[0];
            let second = second_digits[0];
            let digits = word(found.check_digits);
            let remainders = word(found.remainders);
            println!(rt; "check digits {first} and {second} {digits}, remainders {remainders}")
        }
        Err(refusal) => println!(rt; "refused by {refusal}"),
    }
}

// The check digits and remainders of 122 and another vector, by 110 and 011.
fn compared(
    other: &str,
    first_digits: &mut [u8],
    second_digits: &mut [u8],
) -> Result<Compared, Refusal> {
    let calls = [
        Call::TakeIn(vector("001")?),
        Call::Clear,
        Call::TakeIn(vector("110")?),
        Call::Dual(1),
        Call::TakeIn(vector("1111")?),
        Call::TakeIn(vector("011")?),
        Call::Dual(3),
        Call::Ask(Question::Row(0)),
    ];
    same_coset(
        3,
        &mut [Single::zero(); 3],
        &calls,
        &mut [Single::zero(); 3],
        vector("122")?,
        first_digits,
        vector(other)?,
        second_digits,
    )
}
