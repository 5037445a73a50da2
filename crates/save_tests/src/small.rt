//! The save of a match without files, of one client, after one frame: 52 bytes.

use crate::outcome::{printed, read_again};
use crate::setups::{bytes_of, map_of, rules_of};
use std::test::Fail;

/// The rules number of a match without files.
const RULES: u64 = 0xaf63_bd4c_8601_b7df;

/// One cell, on which nothing stands.
const MAP: &str = "\
    Size: 1,1\n\
    Tiles:\n\
    \t0: .\n\
    ";

const SAVE: &str = "\
    4c5353560100dfb701864cbd63af01000000\
    0101010000000100000000000000000000000100000001\
    01e80300000000000000\
    00";

/// The place of a byte, what stands there in its place, and what reading comes to.
static CHANGES: [(usize, u8, &str); 24] = [
    (3, 82, "BadMagic 0"),
    (4, 2, "BadVersion 4"),
    (13, 0, "OtherRules 6"),
    (14, 0, "BadWorld 20"),
    (14, 2, "BadWorld 20"),
    (17, 1, "BadWorld 14"),
    (18, 2, "BadWorld 18"),
    (19, 0, "BadWorld 19"),
    (20, 8, "same"),
    (20, 0, "BadWorld 20"),
    (20, 9, "BadWorld 20"),
    (27, 255, "same"),
    (29, 64, "same"),
    (30, 1, "BadWorld 28"),
    (36, 0, "BadWorld 36"),
    (40, 0, "BadWorld 40"),
    (40, 9, "BadWorld 40"),
    (41, 0, "BadWorld 41"),
    (41, 17, "BadWorld 41"),
    (45, 120, "BadWorld 42"),
    (46, 2, "BadWorld 46"),
    (48, 9, "BadWorld 47"),
    (47, 1, "Torn 51"),
    (51, 91, "BadWorld 51"),
];

#[test]
fn each_field(rt: HostRuntime) -> Result<(), Fail> {
    let alloc = rt.alloc();
    let rules = rules_of(alloc, "")?;
    let map = map_of(alloc, MAP, &rules)?;
    let save = bytes_of(alloc, SAVE)?;
    for (place, byte, want) in CHANGES.iter() {
        let mut bytes = save.clone()?;
        if let Some(old) = bytes.get_mut(*place) {
            *old = *byte;
        }
        let outcome = read_again(alloc, bytes.as_slice(), RULES, &rules, &map)?;
        assert_eq!(rt; printed(alloc, &outcome)?.as_str(), *want);
    }
    Ok(())
}

/// How many of the bytes are left, and what reading comes to. A byte after them is left at 53.
static CUTS: [(usize, &str); 16] = [
    (0, "BadMagic 0"),
    (3, "BadMagic 0"),
    (4, "Torn 4"),
    (5, "Torn 4"),
    (6, "Torn 6"),
    (13, "Torn 6"),
    (17, "Torn 14"),
    (18, "Torn 18"),
    (19, "Torn 19"),
    (35, "Torn 28"),
    (41, "Torn 41"),
    (46, "Torn 46"),
    (50, "Torn 47"),
    (51, "Torn 51"),
    (52, "same"),
    (53, "TrailingBytes 52"),
];

#[test]
fn each_cut(rt: HostRuntime) -> Result<(), Fail> {
    let alloc = rt.alloc();
    let rules = rules_of(alloc, "")?;
    let map = map_of(alloc, MAP, &rules)?;
    let mut save = bytes_of(alloc, SAVE)?;
    save.push(0)?;
    for (left, want) in CUTS.iter() {
        let bytes = save.get(..*left).unwrap_or(&[]);
        let outcome = read_again(alloc, bytes, RULES, &rules, &map)?;
        assert_eq!(rt; printed(alloc, &outcome)?.as_str(), *want);
    }
    Ok(())
}
