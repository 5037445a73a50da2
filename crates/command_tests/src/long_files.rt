//! Whole runs over a disk and a sink in memory, with a rule file at the greatest length. Other runs
//! are recorded command lines of the crate `case_runs`.

use game_io::{Disk, MemDisk, MemSink, Sink};
use match_commands::run;
use std::alloc::{AllocError, Global};
use std::test::Fail;

/// The status of `yaml a`.
fn yaml_status<D: Disk, K: Sink>(
    alloc: Global,
    disk: &mut D,
    out: &mut K,
) -> Result<u8, AllocError> {
    let mut line = Vec::new(alloc);
    for word in ["lockstep", "yaml", "a"] {
        line.push(String::from_str(alloc, word)?)?;
    }
    Ok(run(alloc, line.as_slice(), disk, out))
}

/// A disk with the file `a` of so many empty lines.
fn disk_of_lines(alloc: Global, lines: u32) -> Result<MemDisk, AllocError> {
    let mut text = Vec::new(alloc);
    for _ in 0..lines {
        text.push(b'\n')?;
    }
    let mut disk = MemDisk::new(alloc, Vec::new(alloc));
    disk.add(alloc, "a", text.as_slice())?;
    Ok(disk)
}

#[test]
fn long_rule_files_are_refused(rt: HostRuntime) -> Result<(), Fail> {
    let alloc = rt.alloc();
    let rows = [
        (65_536, 0, ""),
        (4_194_304, 3, "refused a 65537 TooManyLines\n"),
        (4_194_305, 3, "refused a 0 TooLong\n"),
    ];
    for (lines, status, text) in rows {
        let mut disk = disk_of_lines(alloc, lines)?;
        let mut out = MemSink::new(alloc, Vec::new(alloc));
        let answered = yaml_status(alloc, &mut disk, &mut out)?;
        let right = answered == status && out.bytes() == text.as_bytes();
        assert!(rt; right, "{lines}");
    }
    Ok(())
}
