//! Texts with what is printed of them, or with the fault and its line.

use base::NoMemory;
use std::alloc::{AllocError, Global};
use std::str;
use std::test::Fail;
use yaml_lines::{LineFault, parse, print};

/// What is printed of a text, or the fault's name and its line after `! `.
fn outcome(alloc: Global, bytes: &[u8]) -> Result<Vec<u8>, NoMemory> {
    let fault = match parse(alloc, 3, bytes) {
        Ok(forest) => return print(alloc, &forest),
        Err(fault) => fault,
    };
    let (name, place) = match fault {
        LineFault::NotUtf8 { place } => ("NotUtf8", place),
        LineFault::BadIndent { place } => ("BadIndent", place),
        LineFault::TooDeep { place } => ("TooDeep", place),
        LineFault::LineTooLong { place } => ("LineTooLong", place),
        LineFault::TooManyLines { place } => ("TooManyLines", place),
        LineFault::NoMemory => return Err(AllocError),
    };
    let text = format!(in alloc; "! {name} {} {}", place.file, place.line)?;
    Vec::from_slice(alloc, text.as_bytes())
}

static ROWS: [(&[u8], &str); 97] = [
    // Lines, and files without nodes.
    (b"", ""),
    (b"\n", ""),
    (b"\n\n\t\n", ""),
    (b"A:", "A:\n"),
    (b"A", "A:\n"),
    (b"A\n", "A:\n"),
    (b"A: b\nC: d", "A: b\nC: d\n"),
    (b"A:\nA:\n", "A:\nA:\n"),
    (b"A:\n ", "A:\n"),
    (b"\r\n\r\n", ""),
    (b"\xef\xbb\xbf\n", ""),
    // Blanks at both ends of key and value.
    (b"A:b", "A: b\n"),
    (b"A : \t b \t", "A: b\n"),
    (b"A: b\r\nC: d\r\n", "A: b\nC: d\n"),
    (b"\xef\xbb\xbfA: b", "A: b\n"),
    (b"A\xef\xbb\xbf: \xef\xbb\xbfb\xef\xbb\xbf", "A: b\n"),
    (b"A:   ", "A:\n"),
    (b"A: b\tc  d", "A: b\tc  d\n"),
    (b"\xc3\xa9: \xc3\xbc", "\u{e9}: \u{fc}\n"),
    // What is no blank: a no-break space, a vertical tab, a character with two bytes of U+FEFF.
    (b"A: \xc2\xa0b\xc2\xa0", "A: \u{a0}b\u{a0}\n"),
    (b"A: \x0bb", "A: \u{b}b\n"),
    (b"\xef\xbb\xbeA", "\u{fefe}A:\n"),
    // Indents of tabs and of fours of spaces.
    (b"A:\n\tB: 1\n", "A:\n\tB: 1\n"),
    (b"A:\n    B: 1\n", "A:\n\tB: 1\n"),
    (b"A:\n     B: 1\n", "A:\n\tB: 1\n"),
    (b"A:\n   B: 1\n", "A:\nB: 1\n"),
    (b"  A", "A:\n"),
    (b"A:\n  \tB", "A:\n\tB:\n"),
    (b"A:\n  \t  B", "! BadIndent 3 2"),
    (b"A:\n\tB:\n  \t  C", "A:\n\tB:\n\t\tC:\n"),
    (b"A:\n\tB:\n    \tC", "A:\n\tB:\n\t\tC:\n"),
    (b"A:\n\tB:\n        C", "A:\n\tB:\n\t\tC:\n"),
    (b"A:\n\tB:\n       C", "A:\n\tB:\n\tC:\n"),
    (b"A:\n\tB: 1\n    C: 2\n", "A:\n\tB: 1\n\tC: 2\n"),
    (b"A:\n\xef\xbb\xbf\tB", "A:\nB:\n"),
    (b"A:\n\r\tB", "A:\nB:\n"),
    // Comments, and the backslash that keeps a `#`.
    (b"# A: b", ""),
    (b"A: b # c", "A: b\n"),
    (b"A: b#c", "A: b\n"),
    (b"A: #", "A:\n"),
    (b"A#: b", "A:\n"),
    (b"A: b \\# c", "A: b \\# c\n"),
    (b"A: b\\#", "A: b\\#\n"),
    (b"A: \\#", "A: \\#\n"),
    (b"A: \\# # c", "A: \\#\n"),
    (b"A: \\#\\##", "A: \\#\\#\n"),
    (b"A: \\\\# c", "A: \\\\# c\n"),
    (b"\\# A: b", "\\# A: b\n"),
    (b"A\\#B: c", "A\\#B: c\n"),
    (b"A: \\ # c", "A: \\\n"),
    (b"A: b # c \\# d", "A: b\n"),
    (b"A: b \\# c # d \\# e", "A: b \\# c\n"),
    (b"#\\# A: b", ""),
    (b"A:\n\t\\# b", "A:\n\t\\# b:\n"),
    (b"\\#", "\\#:\n"),
    // The first colon.
    (b"A: b: c", "A: b: c\n"),
    (b": b", ": b\n"),
    (b":", ":\n"),
    (b"A b : c : d", "A b: c : d\n"),
    (b"A\\: b", "A\\: b\n"),
    // Backslashes beside blanks.
    (b"A: \\ b", "A: \\ b\n"),
    (b"A: b \\", "A: b \\\n"),
    (b"A: \\ \\", "A: \\ \\\n"),
    (b"A: \\  b  \\", "A: \\  b  \\\n"),
    (b"A: \\", "A: \\\n"),
    (b"A: \\b\\", "A: \\b\\\n"),
    (b"A: \\\\ b", "A: \\\\ b\n"),
    (b"A: b \\\\", "A: b \\\\\n"),
    (b"A: \\\tb\r\\", "A: \\\tb\r\\\n"),
    (
        b"A: \\\xef\xbb\xbfb\xef\xbb\xbf\\",
        "A: \\\u{feff}b\u{feff}\\\n",
    ),
    (b"\\ A: b", "\\ A: b\n"),
    (b"\\: b", "\\: b\n"),
    (b"A\\ : b", "A\\: b\n"),
    (b"A:\\ b", "A: \\ b\n"),
    (b"A: b\\ ", "A: b\\\n"),
    (b"A: b \\ ", "A: b \\\n"),
    (b"A: \\\\", "A: \\\\\n"),
    (b"A: \\ \\#", "A: \\ \\#\n"),
    (b"A: \\# \\", "A: \\# \\\n"),
    // Names that mean something only when files are merged.
    (
        b"A:\n\tInherits@x: ^P\n\t-B:",
        "A:\n\tInherits@x: ^P\n\t-B:\n",
    ),
    (b"A@1: x\nA@2: y\n@: z", "A@1: x\nA@2: y\n@: z\n"),
    // Levels.
    (
        b"A:\n\tB:\n\t\tC:\n\tD:\nE:\n",
        "A:\n\tB:\n\t\tC:\n\tD:\nE:\n",
    ),
    (
        b"A:\n\tB:\n\t\tC:\nD:\n\tE:",
        "A:\n\tB:\n\t\tC:\nD:\n\tE:\n",
    ),
    (b"A:\n# c\n\n\tB:", "A:\n\tB:\n"),
    (b"\tA:", "! BadIndent 3 1"),
    (b"\n    A", "! BadIndent 3 2"),
    (b"A:\n\t\tB:", "! BadIndent 3 2"),
    (b"A:\n\tB:\n\t\t\tC:", "! BadIndent 3 3"),
    (b"A:\n\t# x\n\t\tB:", "! BadIndent 3 3"),
    // Bytes that are no text, and several faults.
    (b"A: \xff", "! NotUtf8 3 1"),
    (b"A:\n# \xc3", "! NotUtf8 3 2"),
    (b"A:\n\t\t\xff", "! NotUtf8 3 2"),
    (b"A:\n\t\tB\n\xff", "! BadIndent 3 2"),
    (b"A:\n\xed\xa0\x80\n\t\tB", "! NotUtf8 3 2"),
    (b"\xff\n\tA", "! NotUtf8 3 1"),
    (b"\tA\n\xff", "! BadIndent 3 1"),
    (b"A:\n\t\tB\n\t\t\xff", "! BadIndent 3 2"),
];

#[test]
fn texts(rt: HostRuntime) -> Result<(), Fail> {
    for (bytes, expected) in ROWS.iter() {
        let printed = outcome(rt.alloc(), *bytes)?;
        assert_eq!(rt; str::from_utf8(printed.as_slice())?, *expected);
        if !expected.starts_with('!') {
            let again = outcome(rt.alloc(), printed.as_slice())?;
            assert_eq!(rt; str::from_utf8(again.as_slice())?, *expected, "read again");
        }
    }
    Ok(())
}

/// A prefix, a byte, how many times it stands, and a rest.
type Part = (&'static [u8], u8, u32, &'static [u8]);

fn add_part(text: &mut Vec<u8>, part: Part) -> Result<(), NoMemory> {
    let (front, byte, times, rest) = part;
    text.extend_from_slice(front)?;
    for _ in 0..times {
        text.push(byte)?;
    }
    text.extend_from_slice(rest)
}

/// Texts, with what is printed of them.
static LONG_ROWS: [(Part, Part); 24] = [
    // Long lines.
    ((b"A: ", b'x', 4_093, b""), (b"A: ", b'x', 4_093, b"\n")),
    ((b"A: ", b'x', 4_093, b"\n"), (b"A: ", b'x', 4_093, b"\n")),
    (
        (b"A: ", b'x', 4_093, b"\r\n"),
        (b"! LineTooLong 3 1", 0, 0, b""),
    ),
    (
        (b"A: ", b'x', 4_094, b""),
        (b"! LineTooLong 3 1", 0, 0, b""),
    ),
    ((b"A:\n#", b'x', 4_095, b"\nB:\n"), (b"A:\nB:\n", 0, 0, b"")),
    (
        (b"A:\n#", b'x', 4_096, b"\nB:\n"),
        (b"! LineTooLong 3 2", 0, 0, b""),
    ),
    ((b"", b' ', 4_096, b"\nA:\n"), (b"A:\n", 0, 0, b"")),
    (
        (b"", b' ', 4_097, b"\nA:\n"),
        (b"! LineTooLong 3 1", 0, 0, b""),
    ),
    // A long line with another fault, and a fault in a line before it.
    (
        (b"A:\n\t\t", b'x', 4_094, b"\n"),
        (b"! BadIndent 3 2", 0, 0, b""),
    ),
    (
        (b"A:\n\t\t", b'x', 4_095, b"\n"),
        (b"! LineTooLong 3 2", 0, 0, b""),
    ),
    (
        (b"A:\n", b'x', 4_097, b"\xff\n"),
        (b"! NotUtf8 3 2", 0, 0, b""),
    ),
    (
        (b"A:\n\t\tB\n", b'x', 4_097, b""),
        (b"! BadIndent 3 2", 0, 0, b""),
    ),
    (
        (b"", b'x', 4_097, b"\n\xff\n"),
        (b"! LineTooLong 3 1", 0, 0, b""),
    ),
    ((b"A:\n", b'\t', 32, b"B"), (b"! BadIndent 3 2", 0, 0, b"")),
    // Many lines.
    ((b"", b'\n', 65_535, b"A"), (b"A:\n", 0, 0, b"")),
    ((b"", b'\n', 65_535, b"A\n"), (b"A:\n", 0, 0, b"")),
    ((b"", b'\n', 65_536, b""), (b"", 0, 0, b"")),
    (
        (b"", b'\n', 65_537, b""),
        (b"! TooManyLines 3 65537", 0, 0, b""),
    ),
    (
        (b"", b'\n', 65_536, b"A:\n"),
        (b"! TooManyLines 3 65537", 0, 0, b""),
    ),
    (
        (b"", b'\n', 65_536, b"# c"),
        (b"! TooManyLines 3 65537", 0, 0, b""),
    ),
    // A line too many with another fault, and a fault in a line before it.
    (
        (b"", b'\n', 65_536, b"\xff"),
        (b"! TooManyLines 3 65537", 0, 0, b""),
    ),
    (
        (b"", b'\n', 65_536, b"\tA"),
        (b"! TooManyLines 3 65537", 0, 0, b""),
    ),
    (
        (b"", b'\n', 65_535, b"\xff\nA:\n"),
        (b"! NotUtf8 3 65536", 0, 0, b""),
    ),
    (
        (b"\xff", b'\n', 65_536, b"A:\n"),
        (b"! NotUtf8 3 1", 0, 0, b""),
    ),
];

#[test]
fn long_texts(rt: HostRuntime) -> Result<(), Fail> {
    for (part, wanted) in LONG_ROWS.iter() {
        let mut text = Vec::new(rt.alloc());
        add_part(&mut text, *part)?;
        let printed = outcome(rt.alloc(), text.as_slice())?;
        let mut expected = Vec::new(rt.alloc());
        add_part(&mut expected, *wanted)?;
        assert_eq!(rt; printed.as_slice(), expected.as_slice());
    }
    Ok(())
}

/// Lines of one name each, every one a level deeper than the one before it.
fn stairs(alloc: Global, lines: u32) -> Result<Vec<u8>, NoMemory> {
    let mut text = Vec::new(alloc);
    for line in 0..lines {
        for _ in 0..line {
            text.push(b'\t')?;
        }
        text.extend_from_slice(b"A:\n")?;
    }
    Ok(text)
}

const TABS_32: &[u8] = b"\t\t\t\t\t\t\t\t\t\t\t\t\t\t\t\t\t\t\t\t\t\t\t\t\t\t\t\t\t\t\t\t";

/// How many lines go down, what stands after them, and the fault. Without a fault the lines are
/// printed as they are.
static DEEP_ROWS: [(u32, Part, &[u8]); 10] = [
    (31, (b"", 0, 0, b""), b""),
    (32, (b"", 0, 0, b""), b""),
    (32, (b"", b'\t', 40, b"# c"), b""),
    (32, (b"", b'\t', 40, b"\n"), b""),
    (33, (b"", 0, 0, b""), b"! TooDeep 3 33"),
    (33, (b"", 0, 0, b"\xff\n"), b"! TooDeep 3 33"),
    (32, (TABS_32, b'x', 4_064, b""), b"! TooDeep 3 33"),
    (32, (TABS_32, b'x', 4_065, b""), b"! LineTooLong 3 33"),
    (32, (TABS_32, b'x', 1, b"\xff"), b"! NotUtf8 3 33"),
    (32, (TABS_32, b'\t', 1, b"A"), b"! BadIndent 3 33"),
];

#[test]
fn deep_texts(rt: HostRuntime) -> Result<(), Fail> {
    for (lines, part, fault) in DEEP_ROWS.iter() {
        let down = stairs(rt.alloc(), *lines)?;
        let mut text = stairs(rt.alloc(), *lines)?;
        add_part(&mut text, *part)?;
        let printed = outcome(rt.alloc(), text.as_slice())?;
        let expected = if fault.is_empty() {
            down.as_slice()
        } else {
            *fault
        };
        assert_eq!(rt; printed.as_slice(), expected);
    }
    Ok(())
}
