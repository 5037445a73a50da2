//! Saves of played matches: they are read and written again, and so is each change of them that is
//! a save; each other change is refused at a field that the change reaches, or after it.

use crate::outcome::{Outcome, read_again};
use crate::real::{AT_WORK, QUEUED, RealSave};
use crate::setups::{bytes_of, map_of, rules_of};
use game_model::Map;
use rule_traits::Rules;
use std::alloc::{AllocError, Global};
use std::test::Fail;

/// The widest field, in bytes.
const WIDEST: u64 = 8;

/// A save of a match with its rules and its map.
#[derive(Drop)]
struct Case {
    rules: Rules,
    map: Map,
    save: Vec<u8>,
    number: u64,
}

fn case_of(alloc: Global, real: &RealSave) -> Result<Case, Fail> {
    let rules = rules_of(alloc, real.rules)?;
    let map = map_of(alloc, real.map, &rules)?;
    let save = bytes_of(alloc, real.save)?;
    Ok(Case {
        rules,
        map,
        save,
        number: real.number,
    })
}

/// True where reading these bytes, whose first change is at a place, comes to what it should.
fn is_right(alloc: Global, case: &Case, bytes: &[u8], place: u64) -> Result<bool, AllocError> {
    match read_again(alloc, bytes, case.number, &case.rules, &case.map)? {
        Outcome::Same => Ok(true),
        Outcome::Other => Ok(false),
        Outcome::Refused(fault) => match fault.place() {
            Some(at) => Ok(place < at.saturating_add(WIDEST)),
            None => Ok(false),
        },
    }
}

/// The first place at which a change of the save, or a cut, doesn't come to what it should.
fn first_wrong(alloc: Global, case: &Case) -> Result<Option<usize>, AllocError> {
    for place in 0..case.save.len() {
        for change in [1, 128, 255] {
            let mut bytes = case.save.clone()?;
            if let Some(byte) = bytes.get_mut(place) {
                *byte ^= change;
            }
            if !is_right(alloc, case, bytes.as_slice(), place as u64)? {
                return Ok(Some(place));
            }
        }
        if !is_right(alloc, case, &case.save[..place], place as u64)? {
            return Ok(Some(place));
        }
    }
    Ok(None)
}

/// True where reading the save and writing it again gives its bytes.
fn is_read(alloc: Global, case: &Case) -> Result<bool, AllocError> {
    let read = read_again(
        alloc,
        case.save.as_slice(),
        case.number,
        &case.rules,
        &case.map,
    )?;
    Ok(matches!(&read, Outcome::Same))
}

#[test]
fn queued(rt: HostRuntime) -> Result<(), Fail> {
    let case = case_of(rt.alloc(), &QUEUED)?;
    assert!(rt; is_read(rt.alloc(), &case)?);
    assert_eq!(rt; first_wrong(rt.alloc(), &case)?, None);
    Ok(())
}

#[test]
fn at_work(rt: HostRuntime) -> Result<(), Fail> {
    let case = case_of(rt.alloc(), &AT_WORK)?;
    assert!(rt; is_read(rt.alloc(), &case)?);
    assert_eq!(rt; first_wrong(rt.alloc(), &case)?, None);
    Ok(())
}
