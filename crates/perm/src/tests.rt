// The sizes and permanents of small sheets, and what is printed of texts that are refused.
use jobs::{fault_lines, permanent};
use std::alloc::Global;
use std::process::Abort;
use std::test::Fail;

const NAMES_60: &str = "a b c d e f g h i j k l m n o p q r s t u v w x y z \
a1 b1 c1 d1 e1 f1 g1 h1 i1 j1 k1 l1 m1 n1 o1 p1 q1 r1 s1 t1 u1 v1 w1 x1 y1 z1 \
a2 b2 c2 d2 e2 f2 g2 h2";

// The two programs answer with different things, so each has these checks for its own job.
fn check_answer(rt: &impl Abort, text: &[u8], size: usize, digit: u8) -> Result<(), Fail> {
    match permanent(text) {
        Ok(answer) => {
            assert_eq!(rt; answer.size, size);
            assert_eq!(rt; answer.digit, digit);
            Ok(())
        }
        Err(_) => Err(Fail::new("refused")),
    }
}

fn check_fault(rt: &impl Abort, heap: Global, text: &[u8], values: &str) -> Result<(), Fail> {
    let expected = format!(in heap; "layer refusal place\n{values}\n")?;
    match permanent(text) {
        Ok(_) => Err(Fail::new("accepted")),
        Err(fault) => {
            assert_eq!(rt;
                fault_lines(heap, fault)?.as_str(),
                expected.as_str(),
                "{values}"
            );
            Ok(())
        },
    }
}

#[test]
fn accepts(rt: HostRuntime) -> Result<(), Fail> {
    let cases: [(&[u8], usize, u8); 8] = [
        (b"a\n0\n", 1, 0),
        (b"a\n1\n", 1, 1),
        (b"a\n2\n", 1, 2),
        (b"a b\n1 2\n1 1\n", 2, 0),
        (b"a b\n1 1\n1 1\n", 2, 2),
        (b"a b c\n1 1 0\n0 1 1\n1 0 1\n", 3, 2),
        (b"a b c\n1 1 1\n1 1 1\n1 1 1\n", 3, 0),
        (
            b"a b c d e f g\n2 0 0 0 0 0 0\n0 1 0 0 0 0 0\n0 0 1 0 0 0 0\n0 0 0 1 0 0 0\n0 0 0 0 1 0 0\n0 0 0 0 0 1 0\n0 0 0 0 0 0 1\n",
            7,
            2,
        ),
    ];
    for (text, size, digit) in cases {
        check_answer(&rt, text, size, digit)?;
    }
    Ok(())
}

#[test]
fn refuses(rt: HostRuntime) -> Result<(), Fail> {
    let cases: [(&[u8], &str); 7] = [
        (b"a\n", "job 5 2"),
        (b"a b\n1 2\n", "job 5 8"),
        (b"a\n1\n1\n", "job 5 6"),
        (b"", "sheet 3 0"),
        (b"a b\n1 3\n", "sheet 4 4"),
        (b"a B\n", "text 2 2"),
        (b"a a\n1 1\n1 1\n", "sheet 3 0"),
    ];
    for (text, values) in cases {
        check_fault(&rt, rt.alloc(), text, values)?;
    }
    Ok(())
}

// 61 names and 61 lines: square, and too large. With one line fewer it is not square, and that comes first.
#[test]
fn refuses_more_than_60_names(rt: HostRuntime) -> Result<(), Fail> {
    let mut text = format!(in rt.alloc(); "{NAMES_60} i2\n")?;
    for _ in 0..60 {
        for _ in 0..60 {
            text.push_str("0 ")?;
        }
        text.push_str("0\n")?;
    }
    let not_square = format!(in rt.alloc(); "job 5 {}", text.len())?;
    check_fault(
        &rt,
        rt.alloc(),
        text.as_str().as_bytes(),
        not_square.as_str(),
    )?;
    for _ in 0..60 {
        text.push_str("0 ")?;
    }
    text.push_str("0\n")?;
    let too_large = format!(in rt.alloc(); "job 6 {}", text.len())?;
    check_fault(
        &rt,
        rt.alloc(),
        text.as_str().as_bytes(),
        too_large.as_str(),
    )
}
