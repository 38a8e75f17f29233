// What `write` and `line` refuse.
use coding::{Coding, Refusal, Ternary};
use codings::Single;
use sheet::{Fault, Layer, open, write};
use std::process::Abort;
use std::test::Fail;

// One name more than the single coding has places, and no line feed yet.
const NAMES_33: &str = "a b c d e f g h i j k l m n o p q r s t u v w x y z a1 b1 c1 d1 e1 f1 g1";

const ZEROS_33: &str = "0 0 0 0 0 0 0 0 0 0 0 0 0 0 0 0 0 0 0 0 0 0 0 0 0 0 0 0 0 0 0 0 0";

// The write is refused by this number, and leaves the output as it was.
fn refuses_write<C: Ternary>(
    rt: &impl Abort,
    head: &str,
    rows: &[C],
    number: u8,
) -> Result<(), Fail> {
    let mut output = [b'?'; 7];
    match write(head.as_bytes(), rows, &mut output) {
        Ok(_) => Err(Fail::new("written")),
        Err(refusal) => {
            assert_eq!(rt; refusal.number(), number, "{head}");
            assert_eq!(rt; &output[0..7], b"???????".as_slice(), "{head}");
            Ok(())
        }
    }
}

// Most rows go beyond the names, and most sheets beyond the output, so a later reason to refuse mostly holds as well.
#[test]
fn refuses_writes(rt: HostRuntime) -> Result<(), Fail> {
    let wide = format!(in rt.alloc(); "{NAMES_33}\n")?;
    let within = Single::zero();
    let beyond = within.change(2, 1)?;
    // The sheet of the name `a` and 32,499 rows has 65,000 bytes.
    let longest = vec![in rt.alloc(); beyond; 32_499]?;
    let too_many = vec![in rt.alloc(); beyond; 32_500]?;
    let cases: [(&str, &[Single], u8); 15] = [
        ("", &[beyond], 3),
        ("a", &[beyond], 3),
        ("a\nb\n", &[beyond], 3),
        ("a?\n", &[beyond], 3),
        ("A\n", &[beyond], 3),
        ("a a\n", &[beyond], 3),
        (NAMES_33, too_many.as_slice(), 3),
        (wide.as_str(), &[], 6),
        (wide.as_str(), too_many.as_slice(), 6),
        ("a\n", too_many.as_slice(), 1),
        ("a\n", longest.as_slice(), 8),
        ("a b\n", &[within], 8),
        ("a b\n", &[beyond], 8),
        ("a\n", &[beyond], 11),
        ("a\n", &[within, beyond], 11),
    ];
    for (head, rows, number) in cases {
        refuses_write(&rt, head, rows, number)?;
    }
    Ok(())
}

// The line is refused, by the job and at the end of the text.
fn refuses_line<C: Ternary>(
    rt: &impl Abort,
    text: &str,
    number: usize,
    refusal: Refusal,
) -> Result<(), Fail> {
    let sheet = open(text.as_bytes())?;
    let line: Result<C, Fault> = sheet.line(number);
    match line {
        Ok(_) => Err(Fail::new("read")),
        Err(fault) => {
            let expected = Fault {
                refusal,
                layer: Layer::Job,
                place: text.len(),
            };
            assert_eq!(rt; fault, expected);
            Ok(())
        }
    }
}

#[test]
fn refuses_lines(rt: HostRuntime) -> Result<(), Fail> {
    let wide = format!(in rt.alloc(); "{NAMES_33}\n{ZEROS_33}\n")?;
    let text = wide.as_str();
    refuses_line::<Single>(&rt, text, 0, Refusal::LengthOutOfRange)?;
    refuses_line::<Single>(&rt, text, 1, Refusal::LengthOutOfRange)?;
    refuses_line::<codings::Planes>(&rt, text, 1, Refusal::NumberOutOfRange)?;
    refuses_line::<Single>(&rt, "a b\n", 0, Refusal::NumberOutOfRange)
}
