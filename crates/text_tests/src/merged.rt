//! No files, a list that is too large for a case, and the limit of a forest. All other files with
//! what is printed of them, or with their fault, are recorded command lines in the crate
//! `case_runs`.

use std::alloc::{AllocError, Global};
use std::test::Fail;
use yaml_lines::{Forest, parse, print};
use yaml_merge::{MAX_FOREST_NODES, resolve};

#[test]
fn no_files(rt: HostRuntime) -> Result<(), Fail> {
    let forests: Vec<Forest> = Vec::new(rt.alloc());
    let forest = resolve(rt.alloc(), forests.as_slice())?;
    let printed = print(rt.alloc(), &forest)?;
    assert!(rt; printed.as_slice().is_empty());
    Ok(())
}

/// Eight nodes that inherit one parent, and a ninth.
const LARGE: &str =
    "A:\n\tA:\n\t\tInherits: 0\n\tB:\n\t\tInherits: 0\n\tC:\n\t\tInherits: 0\n\tD:\n\t\tInherits: 0\n\tE:\n\t\tInherits: 0\n\tF:\n\t\tInherits: 0\n\tG:\n\t\tInherits: 0\n\tH:\n\t\tInherits: 0\n\tI:\n";

/// A parent with 32,767 nodes below it: each number stands at the level of its ones in binary. With
/// `H` the list of those that inherit it has 262,144 nodes.
fn large_list(alloc: Global) -> Result<String, AllocError> {
    let mut text = String::from_str(alloc, LARGE)?;
    for number in 0u32..32_768 {
        for _ in 0..number.count_ones() {
            text.push('\t')?;
        }
        write!(text, "{number}:\n")?;
    }
    Ok(text)
}

/// The cause and the line of the fault of a text, if it has one.
fn fault_of(alloc: Global, text: &str) -> Result<Option<(&'static str, u32)>, Fail> {
    let mut forests = Vec::new(alloc);
    forests.push(parse(alloc, 0, text.as_bytes())?)?;
    match resolve(alloc, forests.as_slice()) {
        Ok(_forest) => Ok(None),
        Err(fault) => Ok(fault.place().map(|place| (fault.cause(), place.line))),
    }
}

#[test]
fn large_lists(rt: HostRuntime) -> Result<(), Fail> {
    let text = large_list(rt.alloc())?;
    let fault = fault_of(rt.alloc(), text.as_str())?;
    assert!(rt; fault == Some(("TooLarge", 18)));
    Ok(())
}

/// A forest of the most nodes would take too long to make, so the limit itself is compared.
#[test]
fn most_nodes(rt: HostRuntime) {
    assert_eq!(rt; MAX_FOREST_NODES, 2_097_152);
}
