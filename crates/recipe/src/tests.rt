//! Recipes by hand, with what the rules say of each.
use crate::*;
use refusal::Refusal;
use std::process::Abort;
use std::test::Fail;

/// Recipes that may be run: their lines, and their grams.
const LAWFUL: [(&[u8], usize, u32); 10] = [
    (b"", 0, 0),
    // One of each kind; 1,000 g from bin 1, mixed for 60 s.
    (b"D\x01\xE8\x03\0\0M\x3C\0ER\x02ok", 4, 1_000),
    // Every field at its lowest and at its highest.
    (b"D\x01\x01\0\0\0M\x01\0ER\x01 ", 4, 1),
    (b"D\x20\x80\x84\x1E\0M\x10\x0EER\x01~", 4, 2_000_000),
    (
        b"R\x50aaaaaaaaaaaaaaaaaaaaaaaaaaaaaaaaaaaaaaaaaaaaaaaaaaaaaaaaaaaaaaaaaaaaaaaaaaaaaaaa",
        1,
        0,
    ),
    // A dose in each phase, a mix twice, a remark in each phase, the trough used twice.
    (
        b"D\x01\x01\0\0\0D\x01\x02\0\0\0M\x01\0D\x01\x04\0\0\0M\x01\0M\x01\0E",
        7,
        7,
    ),
    (b"R\x01aD\x01\x01\0\0\0R\x01bM\x01\0R\x01cE", 6, 1),
    (b"D\x01\x01\0\0\0M\x01\0ED\x01\x02\0\0\0M\x01\0E", 6, 3),
    // 12,000,000 g.
    (
        b"D\x01\x80\x84\x1E\0D\x02\x80\x84\x1E\0D\x03\x80\x84\x1E\0D\x04\x80\x84\x1E\0D\x05\x80\x84\x1E\0D\x06\x80\x84\x1E\0M\x01\0E",
        8,
        12_000_000,
    ),
    (
        b"D\x01\x80\x84\x1E\0D\x02\x80\x84\x1E\0D\x03\x80\x84\x1E\0D\x04\x80\x84\x1E\0D\x05\x80\x84\x1E\0D\x06\x7F\x84\x1E\0D\x07\x01\0\0\0M\x01\0E",
        9,
        12_000_000,
    ),
];

/// Recipes that are refused: the number, and the place.
const REFUSED: [(&[u8], u8, usize); 40] = [
    // Fields just outside their range.
    (b"D\0\x01\0\0\0", 9, 0),
    (b"D\x21\x01\0\0\0", 9, 0),
    (b"D\x01\0\0\0\0", 9, 0),
    (b"D\x01\x81\x84\x1E\0", 9, 0),
    (b"D\x01\x01\0\0\x01", 9, 0),
    (b"D\x01\x01\0\0\0M\0\0E", 9, 6),
    (b"D\x01\x01\0\0\0M\x11\x0EE", 9, 6),
    (b"R\0", 9, 0),
    (
        b"R\x51aaaaaaaaaaaaaaaaaaaaaaaaaaaaaaaaaaaaaaaaaaaaaaaaaaaaaaaaaaaaaaaaaaaaaaaaaaaaaaaaa",
        9,
        0,
    ),
    (b"R\x02a\x1F", 9, 0),
    (b"R\x02\x7Fa", 9, 0),
    // Letters that are none.
    (b"d\x01\x01\0\0\0", 9, 0),
    (b"\0", 9, 0),
    (b"D\x01\x01\0\0\0M\x01\0E\n", 9, 10),
    // Each letter cut at each length.
    (b"D", 9, 0),
    (b"D\x01", 9, 0),
    (b"D\x01\x01", 9, 0),
    (b"D\x01\x01\0", 9, 0),
    (b"D\x01\x01\0\0", 9, 0),
    (b"D\x01\x01\0\0\0M", 9, 6),
    (b"D\x01\x01\0\0\0M\x01", 9, 6),
    (b"R", 9, 0),
    (b"R\x03", 9, 0),
    (b"R\x03a", 9, 0),
    (b"R\x03ab", 9, 0),
    // A line that is wrong for the phase.
    (b"M\x01\0", 10, 0),
    (b"E", 10, 0),
    (b"R\x01aE", 10, 3),
    (b"D\x01\x01\0\0\0E", 10, 6),
    (b"D\x01\x01\0\0\0M\x01\0EE", 10, 10),
    (b"D\x01\x01\0\0\0M\x01\0EM\x01\0", 10, 10),
    // The trough left filled, left mixed.
    (b"D\x01\x01\0\0\0", 10, 6),
    (b"D\x01\x01\0\0\0M\x01\0", 10, 9),
    // A wrong phase before a bad line, a bad line before a wrong phase, both on one line.
    (b"EX", 10, 0),
    (b"XE", 9, 0),
    (b"M\0\0", 9, 0),
    // 12,000,001 g; and faults that come before the total.
    (
        b"D\x01\x80\x84\x1E\0D\x02\x80\x84\x1E\0D\x03\x80\x84\x1E\0D\x04\x80\x84\x1E\0D\x05\x80\x84\x1E\0D\x06\x80\x84\x1E\0D\x07\x01\0\0\0M\x01\0E",
        11,
        0,
    ),
    (
        b"D\x01\x80\x84\x1E\0D\x02\x80\x84\x1E\0D\x03\x80\x84\x1E\0D\x04\x80\x84\x1E\0D\x05\x80\x84\x1E\0D\x06\x80\x84\x1E\0D\x07\x01\0\0\0X",
        9,
        42,
    ),
    (
        b"D\x01\x80\x84\x1E\0D\x02\x80\x84\x1E\0D\x03\x80\x84\x1E\0D\x04\x80\x84\x1E\0D\x05\x80\x84\x1E\0D\x06\x80\x84\x1E\0D\x07\x01\0\0\0E",
        10,
        42,
    ),
    (
        b"D\x01\x80\x84\x1E\0D\x02\x80\x84\x1E\0D\x03\x80\x84\x1E\0D\x04\x80\x84\x1E\0D\x05\x80\x84\x1E\0D\x06\x80\x84\x1E\0D\x07\x01\0\0\0",
        10,
        42,
    ),
];

#[test]
fn lawful_recipes(rt: HostRuntime) {
    for (recipe, lines, grams) in LAWFUL {
        assert_eq!(rt; judge(recipe), Ok(Lawful { lines, grams }));
    }
}

#[test]
fn refused_recipes(rt: HostRuntime) -> Result<(), Fail> {
    for (recipe, number, place) in REFUSED {
        match judge(recipe) {
            Ok(_) => return Err(Fail::new("granted")),
            Err(fault) => {
                assert_eq!(rt; fault.number(), number);
                assert_eq!(rt; fault.place(), place);
            }
        }
    }
    Ok(())
}

/// A line is written as these bytes, and is read again.
fn round_trip(rt: &impl Abort, line: Line<'_>, bytes: &[u8]) -> Result<(), Fail> {
    let mut out = [b'-'; 8];
    let size = bytes.len();
    assert!(rt; size <= 8);
    assert_eq!(rt; write_line(line, &mut out), Ok(size));
    assert_eq!(rt; &out[0..size], bytes);
    let Some((back, rest)) = read_line(&out) else {
        return Err(Fail::new("no line"));
    };
    assert_eq!(rt; back, line);
    assert_eq!(rt; rest.len(), 8 - size);
    Ok(())
}

#[test]
fn written_lines(rt: HostRuntime) -> Result<(), Fail> {
    round_trip(
        &rt,
        Line::Dose {
            bin: 5,
            grams: 66_051,
        },
        b"D\x05\x03\x02\x01\0",
    )?;
    round_trip(&rt, Line::Mix { seconds: 300 }, b"M\x2C\x01")?;
    round_trip(&rt, Line::Empty, b"E")?;
    round_trip(&rt, Line::Remark(b"hi"), b"R\x02hi")
}

/// A line that is not written, and a buffer that stays as it was.
fn unwritten(rt: &impl Abort, line: Line<'_>, fault: Refusal) {
    let mut out = [b'-'; 2];
    assert_eq!(rt; write_line(line, &mut out), Err(fault));
    assert_eq!(rt; out, [b'-'; 2]);
}

#[test]
fn unwritten_lines(rt: HostRuntime) {
    unwritten(&rt, Line::Mix { seconds: 3_600 }, Refusal::BufferTooShort);
    unwritten(&rt, Line::Mix { seconds: 3_601 }, Refusal::BadLine(0));
    unwritten(&rt, Line::Remark(b"a"), Refusal::BufferTooShort);
    unwritten(&rt, Line::Remark(b"\n"), Refusal::BadLine(0));
}

/// Texts of lines.
const TEXTS: [&str; 8] = [
    "dose 1 1",
    "dose 32 2000000",
    "mix 1",
    "mix 3600",
    "empty",
    "remark  ",
    "remark dose 1 1",
    "remark aaaaaaaaaaaaaaaaaaaaaaaaaaaaaaaaaaaaaaaaaaaaaaaaaaaaaaaaaaaaaaaaaaaaaaaaaaaaaaaa",
];

/// Texts of no line.
const NO_TEXTS: [&str; 24] = [
    "",
    "dose",
    "dose 1",
    "dose 1 ",
    "dose 1 1 1",
    "dose 1  1",
    "dose 0 1",
    "dose 33 1",
    "dose 1 0",
    "dose 1 2000001",
    "dose 1 4294967297",
    "dose 257 1",
    "dose 01 1",
    "dose +1 1",
    "dose -1 1",
    "mix",
    "mix 0",
    "mix 3601",
    "empty ",
    "Empty",
    "remark",
    "remark ",
    "remark \t",
    "remark aaaaaaaaaaaaaaaaaaaaaaaaaaaaaaaaaaaaaaaaaaaaaaaaaaaaaaaaaaaaaaaaaaaaaaaaaaaaaaaaa",
];

#[test]
fn texts_of_lines(rt: HostRuntime) -> Result<(), Fail> {
    for text in TEXTS {
        let line = Line::try_from(text)?;
        assert_eq!(rt; parse_line(text), Some(line));
        assert_eq!(rt; line.to_string(rt.alloc())?.as_str(), text);
    }
    for text in NO_TEXTS {
        assert!(rt; parse_line(text).is_none(), "{}", text);
        assert_eq!(rt; Line::try_from(text), Err(NotALine));
    }
    Ok(())
}
