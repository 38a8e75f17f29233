// What is written of sheets, and printed of texts that are refused.
use coding::first_of;
use jobs::{fault_lines, normal};
use std::alloc::Global;
use std::process::Abort;
use std::test::Fail;

const NAMES_64: &str = "a b c d e f g h i j k l m n o p q r s t u v w x y z \
a1 b1 c1 d1 e1 f1 g1 h1 i1 j1 k1 l1 m1 n1 o1 p1 q1 r1 s1 t1 u1 v1 w1 x1 y1 z1 \
a2 b2 c2 d2 e2 f2 g2 h2 i2 j2 k2 l2\n";

// The two programs answer with different things, so each has these checks for its own job.
fn check_answer(rt: &impl Abort, text: &[u8], expected: &str) -> Result<(), Fail> {
    let mut output = [b'?'; 300];
    match normal(text, &mut output) {
        Ok(length) => {
            assert_eq!(rt; first_of(&output, length), expected.as_bytes());
            Ok(())
        },
        Err(_) => Err(Fail::new("refused")),
    }
}

fn check_fault(rt: &impl Abort, heap: Global, text: &[u8], values: &str) -> Result<(), Fail> {
    let expected = format!(in heap; "layer refusal place\n{values}\n")?;
    match normal(text, &mut [0; 300]) {
        Ok(_) => Err(Fail::new("accepted")),
        Err(fault) => {
            assert_eq!(rt;
                fault_lines(heap, fault)?.as_str(),
                expected.as_str(),
                "{values}"
            );
            Ok(())
        },
    }
}

#[test]
fn accepts(rt: HostRuntime) -> Result<(), Fail> {
    check_answer(
        &rt,
        b"a b c\n1 1 0\n0 1 1\n2 2 0\n",
        "a b c\n1 0 2\n0 1 1\n",
    )?;
    check_answer(&rt, b"a b\n", "a b\n")?;
    check_answer(&rt, b"a\n1\n2\n", "a\n1\n")?;
    check_answer(&rt, NAMES_64.as_bytes(), NAMES_64)
}

#[test]
fn refuses(rt: HostRuntime) -> Result<(), Fail> {
    let names_65 = format!(in rt.alloc(); "m2 {NAMES_64}")?;
    let cases: [(&[u8], &str); 21] = [
        (b"a b\n1 3\n", "sheet 4 4"),
        (b"", "sheet 3 0"),
        (b"\n", "sheet 3 0"),
        (names_65.as_str().as_bytes(), "sheet 3 0"),
        (b"abcdefgh abcdefghi\n", "sheet 3 0"),
        (b"a 1b\n", "sheet 3 0"),
        (b"a b a\n", "sheet 3 0"),
        (b" a b\n", "sheet 3 0"),
        (b"a b \n", "sheet 3 0"),
        (b"a  b\n", "sheet 3 0"),
        (b"a b", "sheet 3 0"),
        (b"a b\r\n", "text 2 3"),
        (b"a B\n", "text 2 2"),
        (b"a\n1\n\0\n", "text 2 4"),
        (b"a\n\xff\n", "text 2 2"),
        (b"a b\n1 2\n1\n", "sheet 4 8"),
        (b"a b\n1 2\n1 2 0\n", "sheet 4 8"),
        (b"a b\n1 2\n\n0 0\n", "sheet 4 8"),
        (b"a b\n10 2\n", "sheet 4 4"),
        (b"a b\n1 2\n0 1", "sheet 4 8"),
        (b"a a\n1 2\n-1\n", "text 2 8"),
    ];
    for (text, values) in cases {
        check_fault(&rt, rt.alloc(), text, values)?;
    }
    Ok(())
}

#[test]
fn judges_the_length_first(rt: HostRuntime) -> Result<(), Fail> {
    let longest = vec![in rt.alloc(); b'\n'; 65_000]?;
    check_fault(&rt, rt.alloc(), longest.as_slice(), "sheet 3 0")?;
    let too_long = vec![in rt.alloc(); b'?'; 65_001]?;
    check_fault(&rt, rt.alloc(), too_long.as_slice(), "text 1 65000")
}

#[test]
fn needs_room(rt: HostRuntime) -> Result<(), Fail> {
    let mut output = [b'?'; 7];
    match normal(b"a b\n1 2\n", &mut output) {
        Ok(_) => Err(Fail::new("accepted")),
        Err(fault) => {
            let lines = fault_lines(rt.alloc(), fault)?;
            assert_eq!(rt; lines.as_str(), "layer refusal place\njob 8 8\n");
            assert_eq!(rt; &output[0..7], b"???????".as_slice());
            Ok(())
        }
    }
}

#[test]
fn accepts_a_name_of_eight(rt: HostRuntime) -> Result<(), Fail> {
    check_answer(&rt, b"abcdefgh\n", "abcdefgh\n")
}

#[test]
fn refuses_blanks_and_bytes_in_order(rt: HostRuntime) -> Result<(), Fail> {
    let cases: [(&[u8], &str); 4] = [
        (b"a b\n 1 2\n", "sheet 4 4"),
        (b"a b\n1 2 \n", "sheet 4 4"),
        (b"a b\n1\t2\n", "text 2 5"),
        (b"a a\n1 3\n", "sheet 3 0"),
    ];
    for (text, values) in cases {
        check_fault(&rt, rt.alloc(), text, values)?;
    }
    Ok(())
}

#[test]
fn accepts_the_longest_sheet(rt: HostRuntime) -> Result<(), Fail> {
    let mut text = String::from_str(rt.alloc(), "a\n")?;
    for _ in 0..32_499 {
        text.push_str("1\n")?;
    }
    assert_eq!(rt; text.len(), 65_000);
    check_answer(&rt, text.as_str().as_bytes(), "a\n1\n")?;
    text.push_str("1")?;
    check_fault(&rt, rt.alloc(), text.as_str().as_bytes(), "text 1 65000")
}

#[test]
fn needs_room_for_its_rows_alone(rt: HostRuntime) -> Result<(), Fail> {
    let text = b"a b\n1 2\n2 1\n";
    let mut output = [b'?'; 7];
    match normal(text, &mut output) {
        Ok(_) => Err(Fail::new("accepted")),
        Err(fault) => {
            let lines = fault_lines(rt.alloc(), fault)?;
            assert_eq!(rt; lines.as_str(), "layer refusal place\njob 8 12\n");
            assert_eq!(rt; &output[0..7], b"???????".as_slice());
            Ok(())
        }
    }?;
    // One byte more is enough.
    let mut enough = [b'?'; 8];
    match normal(text, &mut enough) {
        Ok(length) => {
            assert_eq!(rt; first_of(&enough, length), b"a b\n1 2\n".as_slice());
            Ok(())
        },
        Err(_) => Err(Fail::new("refused")),
    }
}
