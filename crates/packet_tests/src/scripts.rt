//! Scripts that are read, and faulty ones with the letter of their fault and its line.

use crate::faults::letter;
use drill_words::{MAX_DRILL_BYTES, MAX_EVENTS, Scripts, read_script};
use game_orders::{Order, Orders};
use std::alloc::{AllocError, Global};
use std::process::Abort;
use std::test::Fail;

/// The letter of a script's fault and its line. A script that is read has `-`.
fn fault(rt: &impl Abort, alloc: Global, text: &[u8], solo: bool) -> (u8, u32) {
    assert!(rt; text.len() <= MAX_DRILL_BYTES as usize);
    match read_script(alloc, text, solo) {
        Ok(_) => (b'-', 0),
        Err(fault) => letter(&fault),
    }
}

/// Faulty scripts, and whether each is read as a solo one.
const FAULTS: [(&[u8], bool, u8, u32); 22] = [
    // No line is kept.
    (b"", false, b'W', 0),
    (b"\n", true, b'W', 0),
    // The first kept line.
    (
        b"seal 0 attack 1 4294967296\n4 move 29 6 7 ; attack+ 28 21\n#",
        false,
        b'W',
        1,
    ),
    (b"5 1\n", false, b'W', 1),
    (b"\0script 8 9\n\n", false, b'W', 1),
    (b"match 1 2 3\n", false, b'W', 1),
    (b"script 1", false, b'W', 1),
    (b"script 1 9 9", false, b'W', 1),
    (b"script 0 9", false, b'N', 1),
    (b"script 17 9", false, b'N', 1),
    (b"script 1 4294967296", false, b'N', 1),
    (b"script 2 x y", true, b'N', 1),
    (b"script 16 9", true, b'N', 1),
    // The plays.
    (
        b"script 8 9\n7 move 8 0 11 ; attack 3 10\nforge 0 0 0x00000000000000\n",
        false,
        b'N',
        3,
    ),
    (
        b"script 5 9\n4 stop 10\n4 stop 8 ; stop 7 ; attack 10 10\n4294967294 4\n",
        false,
        b'C',
        4,
    ),
    (
        b"script 3 870798996\n0 stop 1 ; stop 1 ; stop 1 ; stop 1 ; stop 1 ; stop 1 ; stop 1 \
          ; stop 1 ; stop 1 ; stop 1 ; stop 1 ; stop 1 ; stop 1 ; stop 1 ; stop 1 ; stop 1 ; stop",
        false,
        b'O',
        2,
    ),
    (b"script 1 9\n1\n2", false, b'C', 2),
    (b"script 1 9\n99999999999", false, b'N', 2),
    (b"script 1 9\n0 ;", false, b'W', 2),
    (b"script 1 9\n0\n\n# 7\n0 wait", true, b'W', 5),
    (b"script 2 9\n1 stop 1 stop 2\n2", false, b'W', 2),
    (b"script 2 9\n1 stop x\n2", false, b'N', 2),
];

#[test]
fn scripts_are_refused(rt: HostRuntime) -> Result<(), Fail> {
    for (text, solo, letter, line) in FAULTS {
        let got = fault(&rt, rt.alloc(), text, solo);
        assert_eq!(rt; got, (letter, line), "{text:?}");
    }
    Ok(())
}

/// A head, and so many plays of client 0.
fn script_of(alloc: Global, plays: u32) -> Result<Vec<u8>, AllocError> {
    let mut text = Vec::from_slice(alloc, b"script 1 9\n")?;
    for _ in 0..plays {
        text.extend_from_slice(b"0\n")?;
    }
    Ok(text)
}

#[test]
fn plays_are_counted(rt: HostRuntime) -> Result<(), Fail> {
    let mut text = script_of(rt.alloc(), MAX_EVENTS)?;
    assert_eq!(rt; fault(&rt, rt.alloc(), text.as_slice(), true), (b'-', 0));
    text.extend_from_slice(b"x")?;
    let got = fault(&rt, rt.alloc(), text.as_slice(), false);
    assert_eq!(rt; got, (b'E', 200_002));
    Ok(())
}

/// A script that is read in one line: its seed, after each stroke the plays of a client, and of
/// each play the receiver and the amount of its donations.
fn shown(rt: &impl Abort, alloc: Global, text: &[u8], solo: bool) -> Result<String, AllocError> {
    assert!(rt; text.len() <= MAX_DRILL_BYTES as usize);
    let Ok((seed, scripts)) = read_script(alloc, text, solo) else {
        return Ok(String::new(alloc));
    };
    let mut line = format!(in alloc; "{seed}")?;
    show_scripts(&mut line, &scripts)?;
    Ok(line)
}

fn show_scripts(line: &mut String, scripts: &Scripts) -> Result<(), AllocError> {
    for c in 0..scripts.clients() {
        write!(line, " /")?;
        let plays = scripts.plays(c);
        for n in 0..plays.len() {
            show_play(line, &plays.get(n))?;
        }
    }
    Ok(())
}

fn show_play(line: &mut String, orders: &Orders) -> Result<(), AllocError> {
    write!(line, " {}", orders.len())?;
    for order in orders.as_slice() {
        if let Order::Donate { to, amount } = order {
            write!(line, ":{to}:{amount}")?;
        }
    }
    Ok(())
}

/// Scripts that are read.
const SCRIPTS: [(&[u8], bool, &[u8]); 5] = [
    (
        b"script 3 9\n0 donate 1 10\n1\n2\n0\n",
        false,
        b"9 / 1:1:10 0 / 0 / 0",
    ),
    (b"script 1 0", true, b"0 /"),
    (b"script 2 9\n", false, b"9 / /"),
    (
        b"# all\n\nscript 16 4294967295\n15 donate 255 4294967295 ; donate 1 0",
        false,
        b"4294967295 / / / / / / / / / / / / / / / / 2:255:4294967295:1:0",
    ),
    (
        b"script 2 1\n1 donate 0 1\n0\n1 stop 3\n0 donate 1 2\n1\n",
        false,
        b"1 / 0 1:1:2 / 1:0:1 1 0",
    ),
];

#[test]
fn scripts_are_read(rt: HostRuntime) -> Result<(), Fail> {
    for (text, solo, want) in SCRIPTS {
        let got = shown(&rt, rt.alloc(), text, solo)?;
        assert_eq!(rt; got.as_bytes(), want, "{text:?}");
    }
    Ok(())
}
