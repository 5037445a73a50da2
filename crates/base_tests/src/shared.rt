//! Counts of faults, lists, and numbers that are read.

use base::{FaultCount, List, read_number};
use std::test::Fail;

#[test]
fn counts(rt: HostRuntime) {
    let mut faults = FaultCount::new();
    assert_eq!(rt; faults.get(), 0);
    faults.raise();
    faults.raise();
    assert_eq!(rt; faults.get(), 2);
}

#[test]
fn keeps_its_elements(rt: HostRuntime) -> Result<(), Fail> {
    let mut list: List<u16> = List::new(rt.alloc());
    list.push(7)?;
    list.push(9)?;
    assert_eq!(rt; (list.len(), list.is_empty()), (2, false));
    let held = list.into_vec();
    let list = List::from_vec(held);
    assert_eq!(rt; list.as_slice(), [7, 9].as_slice());
    Ok(())
}

/// Words, and the numbers that they write.
static WORDS: [(&[u8], Option<u64>); 10] = [
    (b"", None),
    (b"0", Some(0)),
    (b"007", Some(7)),
    (b"9999999999", Some(9_999_999_999)),
    (b"0000000000", Some(0)),
    (b"00000000000", None),
    (b"+1", None),
    (b"1 ", None),
    (b"1/", None),
    (b"1:", None),
];

#[test]
fn reads_numbers(rt: HostRuntime) {
    for (word, number) in WORDS.iter() {
        assert_eq!(rt; read_number(word), *number);
    }
}
