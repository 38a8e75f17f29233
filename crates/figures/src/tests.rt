// The figures, run through the calls of each coding.
use coding::{Coding, Lead, Refusal, Ternary, walk};
use codings::{Planes, Signs, Single};
use sheet::{open, write};
use std::process::Abort;
use std::test::Fail;

// The vector with these digits, place 0 first.
pub(crate) fn vector<C: Coding>(digits: &[u8]) -> Result<C, Refusal> {
    let mut v = C::zero();
    for (place, digit) in digits.iter().enumerate() {
        v = v.change(place, *digit)?;
    }
    Ok(v)
}

pub(crate) fn shows<C: Coding>(rt: &impl Abort, v: C, digits: &[u8]) -> Result<(), Fail> {
    for (place, digit) in digits.iter().enumerate() {
        assert_eq!(rt; v.digit(place)?, *digit);
    }
    Ok(())
}

#[test]
fn spells_planes(rt: HostRuntime) -> Result<(), Fail> {
    let v: Planes = vector(&[1, 2, 0])?;
    assert_eq!(rt; v.first, 0xFFFF_FFFF_FFFF_FFFE);
    assert_eq!(rt; v.second, 0xFFFF_FFFF_FFFF_FFFD);
    // A place with neither bit is read as a 2.
    let empty = Planes {
        first: 0,
        second: 0,
    };
    assert_eq!(rt; empty.read(), (u64::MAX, 0));
    assert_eq!(rt; empty.digit(63)?, 2);
    Ok(())
}

#[test]
fn spells_single_words(rt: HostRuntime) -> Result<(), Fail> {
    let v: Single = vector(&[1, 2, 0])?;
    assert_eq!(rt; v.word, 0xFFFF_FFFE_FFFF_FFFD);
    let empty = Single { word: 0 };
    assert_eq!(rt; empty.read(), 0xFFFF_FFFF_0000_0000);
    assert_eq!(rt; empty.digit(31)?, 2);
    Ok(())
}

#[test]
fn spells_signs(rt: HostRuntime) -> Result<(), Fail> {
    for sign in [0x8, 0xC] {
        let v = Signs {
            magnitude: 0xB,
            sign,
        };
        shows(&rt, v, &[1, 1, 0, 2, 0])?;
        assert_eq!(rt; v.read(), (0xB, 0x8));
        assert_eq!(rt; v.loose(), sign ^ 0x8);
    }
    Ok(())
}

fn adds_and_compares<C: Coding>(rt: &impl Abort) -> Result<(), Fail> {
    let v: C = vector(&[0, 1, 2])?;
    let w: C = vector(&[1, 1, 1])?;
    shows(rt, v.sum(w), &[1, 2, 0, 0])?;
    shows(rt, v.difference(w), &[2, 0, 1, 0])?;
    assert_eq!(rt; v.distance(w), 2);
    assert_eq!(rt; v.weight(), 2);
    assert_eq!(rt; v.lead(), Some(Lead { place: 1, digit: 1 }));
    Ok(())
}

#[test]
fn adds_and_compares_in_each_coding(rt: HostRuntime) -> Result<(), Fail> {
    adds_and_compares::<Planes>(&rt)?;
    adds_and_compares::<Signs>(&rt)?;
    adds_and_compares::<Single>(&rt)
}

#[test]
fn sums_sixty_four_products(rt: HostRuntime) -> Result<(), Fail> {
    let planes: Planes = vector(&[1; 64])?;
    assert_eq!(rt; planes.dot(planes.negation()), 2);
    let signs: Signs = vector(&[1; 64])?;
    assert_eq!(rt; signs.dot(signs.negation()), 2);
    Ok(())
}

// Two digits, and what each operation on two vectors gives of them.
#[derive(Clone, Copy)]
struct Pair {
    digits: (u8, u8),
    sum: u8,
    difference: u8,
    product: u8,
}

const PAIRS: [Pair; 9] = [
    Pair {
        digits: (0, 0),
        sum: 0,
        difference: 0,
        product: 0,
    },
    Pair {
        digits: (0, 1),
        sum: 1,
        difference: 2,
        product: 0,
    },
    Pair {
        digits: (0, 2),
        sum: 2,
        difference: 1,
        product: 0,
    },
    Pair {
        digits: (1, 0),
        sum: 1,
        difference: 1,
        product: 0,
    },
    Pair {
        digits: (1, 1),
        sum: 2,
        difference: 0,
        product: 1,
    },
    Pair {
        digits: (1, 2),
        sum: 0,
        difference: 2,
        product: 2,
    },
    Pair {
        digits: (2, 0),
        sum: 2,
        difference: 2,
        product: 0,
    },
    Pair {
        digits: (2, 1),
        sum: 0,
        difference: 1,
        product: 2,
    },
    Pair {
        digits: (2, 2),
        sum: 1,
        difference: 0,
        product: 1,
    },
];

// All operations on two vectors that hold the pair at a place, and 0 elsewhere.
fn answers<C: Coding>(rt: &impl Abort, v: C, w: C, place: usize, pair: Pair) -> Result<(), Fail> {
    assert_eq!(rt; v.sum(w).digit(place)?, pair.sum);
    assert_eq!(rt; v.difference(w).digit(place)?, pair.difference);
    assert_eq!(rt; v.product(w).digit(place)?, pair.product);
    let (sum, difference) = v.sum_and_difference(w);
    assert_eq!(rt; sum.digit(place)?, pair.sum);
    assert_eq!(rt; difference.digit(place)?, pair.difference);
    assert_eq!(rt; v.dot(w), pair.product);
    let (a, b) = pair.digits;
    assert_eq!(rt; v.distance(w), if a == b { 0 } else { 1 });
    assert_eq!(rt; v.sum(w).weight(), if pair.sum == 0 { 0 } else { 1 });
    Ok(())
}

fn answers_pairs<C: Coding>(rt: &impl Abort, place: usize) -> Result<(), Fail> {
    for pair in PAIRS {
        let (a, b) = pair.digits;
        let v = C::zero().change(place, a)?;
        let w = C::zero().change(place, b)?;
        answers(rt, v, w, place, pair)?;
    }
    Ok(())
}

// A digit at place 5, with the sign's bits at the zeros there or all about.
fn spellings(digit: u8) -> [Signs; 3] {
    let magnitude = if digit == 0 { 0 } else { 1 << 5 };
    let sign = if digit == 2 { 1 << 5 } else { 0 };
    let at_zero = if digit == 0 { 1 << 5 } else { sign };
    let elsewhere = !(1 << 5);
    [
        Signs { magnitude, sign },
        Signs {
            magnitude,
            sign: at_zero,
        },
        Signs {
            magnitude,
            sign: sign | elsewhere,
        },
    ]
}

#[test]
fn answers_pairs_in_each_coding_and_spelling(rt: HostRuntime) -> Result<(), Fail> {
    for place in [0, 5, 31] {
        answers_pairs::<Planes>(&rt, place)?;
        answers_pairs::<Signs>(&rt, place)?;
        answers_pairs::<Single>(&rt, place)?;
    }
    for pair in PAIRS {
        let (a, b) = pair.digits;
        for v in spellings(a) {
            for w in spellings(b) {
                answers(&rt, v, w, 5, pair)?;
            }
        }
    }
    Ok(())
}

// A vector that holds the first digit of each pair at a place, scaled by the second.
fn scales_pairs<C: Coding>(rt: &impl Abort, place: usize) -> Result<(), Fail> {
    for pair in PAIRS {
        let (a, b) = pair.digits;
        let v = C::zero().change(place, a)?;
        assert_eq!(rt; v.scaled(b)?.digit(place)?, pair.product);
    }
    Ok(())
}

#[test]
fn scales_in_each_coding_and_spelling(rt: HostRuntime) -> Result<(), Fail> {
    for place in [0, 5, 31] {
        scales_pairs::<Planes>(&rt, place)?;
        scales_pairs::<Signs>(&rt, place)?;
        scales_pairs::<Single>(&rt, place)?;
    }
    for pair in PAIRS {
        let (a, b) = pair.digits;
        for v in spellings(a) {
            assert_eq!(rt; v.scaled(b)?.digit(5)?, pair.product);
        }
    }
    Ok(())
}

// Scaled by 1, the words are stored as they are read.
#[test]
fn scales_by_one_as_read(rt: HostRuntime) -> Result<(), Fail> {
    let empty = Planes {
        first: 0,
        second: 0,
    };
    let once = empty.scaled(1)?;
    assert_eq!(rt; (once.first, once.second), (u64::MAX, 0));
    assert_eq!(rt; Single { word: 0 }.scaled(1)?.word, 0xFFFF_FFFF_0000_0000);
    Ok(())
}

// Each digit's inverse, and two numbers that are no digit, which both calls refuse.
fn inverts<C: Coding>(rt: &impl Abort) -> Result<(), Fail> {
    for digit in [0, 1, 2] {
        assert_eq!(rt; C::inverse(digit)?, digit);
    }
    for digit in [3, 255] {
        assert_eq!(rt; C::inverse(digit), Err(Refusal::DigitTooLarge));
        match C::zero().scaled(digit) {
            Ok(_) => return Err(Fail::new("scaled")),
            Err(refusal) => assert_eq!(rt; refusal, Refusal::DigitTooLarge),
        }
    }
    Ok(())
}

#[test]
fn inverts_and_refuses_in_each_coding(rt: HostRuntime) -> Result<(), Fail> {
    inverts::<Planes>(&rt)?;
    inverts::<Signs>(&rt)?;
    inverts::<Single>(&rt)
}

const ORDER: [[u8; 2]; 9] = [
    [0, 0],
    [1, 0],
    [2, 0],
    [0, 1],
    [1, 2],
    [2, 1],
    [0, 2],
    [1, 1],
    [2, 2],
];

fn in_order<C: Coding>(rt: &impl Abort, rows: &[C]) -> Result<(), Fail> {
    for (row, digits) in rows.iter().zip(ORDER) {
        shows(rt, *row, &digits)?;
    }
    Ok(())
}

#[test]
fn walks_length_two(rt: HostRuntime) -> Result<(), Fail> {
    let mut planes = [Planes::zero(); 10];
    assert_eq!(rt; walk(2, &mut planes)?, 9);
    in_order(&rt, &planes)?;
    let mut signs = [Signs::zero(); 9];
    assert_eq!(rt; walk(2, &mut signs)?, 9);
    in_order(&rt, &signs)?;
    let mut single = [Single::zero(); 9];
    assert_eq!(rt; walk(2, &mut single)?, 9);
    in_order(&rt, &single)
}

// Writes two rows, opens what was written and reads the rows again.
fn reads_back<C: Ternary>(rt: &impl Abort, rows: &[C]) -> Result<(), Fail> {
    let mut output = [b'?'; 20];
    let length = write(b"a b c\n", rows, &mut output)?;
    assert!(rt; length == 18);
    assert_eq!(rt; &output[0..20], b"a b c\n1 2 0\n0 1 2\n??".as_slice());
    let sheet = open(&output[0..18])?;
    assert_eq!(rt; sheet.lines(), 2);
    shows::<C>(rt, sheet.line(0)?, &[1, 2, 0, 0])?;
    shows::<C>(rt, sheet.line(1)?, &[0, 1, 2, 0])
}

#[test]
fn reads_back_what_was_written(rt: HostRuntime) -> Result<(), Fail> {
    let planes: [Planes; 2] = [vector(&[1, 2, 0])?, vector(&[0, 1, 2])?];
    reads_back(&rt, &planes)?;
    let signs: [Signs; 2] = [vector(&[1, 2, 0])?, vector(&[0, 1, 2])?];
    reads_back(&rt, &signs)?;
    let single: [Single; 2] = [vector(&[1, 2, 0])?, vector(&[0, 1, 2])?];
    reads_back(&rt, &single)
}
