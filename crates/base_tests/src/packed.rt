//! Lists of flags and of numbers below 16.

use packed_lists::{Bits, Nibbles};
use std::test::Fail;

#[test]
fn keeps_its_flags(rt: HostRuntime) -> Result<(), Fail> {
    let mut list = Bits::clear(rt.alloc(), 130)?;
    let mut other = Bits::clear(rt.alloc(), 130)?;
    list.set(0, true);
    list.set(63, true);
    list.set(64, true);
    list.set(129, true);
    list.set(0, false);
    assert_eq!(rt;
        (list.get(0), list.get(63), list.get(64)),
        (false, true, true)
    );
    assert_eq!(rt;
        (list.get(65), list.get(128), list.get(129)),
        (false, false, true)
    );
    assert!(rt; !list.is_same(&other));
    other.copy_from(&list);
    assert!(rt; list.is_same(&other));
    Ok(())
}

#[test]
fn keeps_its_numbers(rt: HostRuntime) -> Result<(), Fail> {
    let mut list = Nibbles::zeros(rt.alloc(), 35)?;
    let mut other = Nibbles::zeros(rt.alloc(), 35)?;
    list.set(0, 15);
    list.set(15, 9);
    list.set(16, 7);
    list.set(34, 12);
    list.set(0, 3);
    assert_eq!(rt; (list.get(0), list.get(1), list.get(15)), (3, 0, 9));
    assert_eq!(rt; (list.get(16), list.get(33), list.get(34)), (7, 0, 12));
    assert!(rt; !list.is_same(&other));
    other.copy_from(&list);
    assert!(rt; list.is_same(&other));
    Ok(())
}
