//! The program `case_runs`: it runs recorded command lines over files and links in memory, and
//! names the first of each file that isn't answered as recorded. Its arguments are files of cases.
#![tactic(auto)]

mod case;
mod case_file;
mod case_link;
mod case_reader;
mod checking;
mod ending;
mod failing;
mod left;
mod packets;
mod read_fault;
mod running;
mod sent;
mod sent_columns;
mod sent_reports;
mod server_world;
mod world_fields;

use crate::checking::{Shown, run_cases};
use crate::read_fault::ReadFault;
use game_io::{Disk, FileDisk};
use std::process::ExitCode;
use std::{env, io};

/// The greatest length of a file of cases, in bytes.
const MAX_BYTES: u32 = 1_073_741_824;

fn main(rt: HostRuntime) -> io::Result<ExitCode> {
    let mut disk = FileDisk::new(&rt);
    let mut status = ExitCode::SUCCESS;
    for name in env::args(&rt)?.skip(1) {
        let Ok(bytes) = disk.read_file(rt.alloc(), &name, MAX_BYTES) else {
            println!(rt; "{name}: not read")?;
            status = ExitCode::FAILURE;
            continue;
        };
        match run_cases(&rt, rt.alloc(), &bytes) {
            Ok(Shown::AllRight(number)) => println!(rt; "{name}: {number} cases")?,
            Ok(Shown::Wrong(case)) => println!(rt; "{name}: {case} is wrong")?,
            Err(ReadFault::NoCase) => println!(rt; "{name}: no case")?,
            Err(ReadFault::NoMemory) => println!(rt; "{name}: out of memory")?,
        }
    }
    Ok(status)
}
