//! What is written last.
ghost use Rattle.std.specs.Prelude.{◌≤◌, option_map};
ghost use Rattle.command_answers.specs.Answer.{write_of};
ghost use Rattle.command_answers.specs.Writing.{PrintsAnswer, WritesLast};

use crate::answer::{Answer, FileBytes};
use crate::print::print_stop;
use crate::statuses::{FAULT_WRITE, OUT_OF_MEMORY};
use crate::stop::Stop;
use game_io::{Disk, DiskError, Sink};
use std::alloc::Global;

/// Writes the file of an answer, if it has one, after its text; the answer's status is given.
pub fn write_last<D: Disk>(
    alloc: Global,
    disk: &mut D,
    file: Option<FileBytes<'_>>,
    status: u8,
) -> u8
    ensures writes { WritesLast (option_map write_of file.entry) status result
        (D.state disk.old) (D.state disk.new) }
    ensures later { (D.state disk.old).faults ≤ (D.state disk.new).faults }
{
    match file {
        Some(file) => write_file(alloc, disk, &file, status),
        None => status,
    }
}

/// Writes a file after the text of an answer with this status.
fn write_file<D: Disk>(alloc: Global, disk: &mut D, file: &FileBytes<'_>, status: u8) -> u8
    ensures writes { WritesLast (Some (write_of file.now)) status result
        (D.state disk.old) (D.state disk.new) }
    ensures later { (D.state disk.old).faults ≤ (D.state disk.new).faults }
{
    match disk.write_file(alloc, file.name, &file.bytes) {
        Ok(()) => status,
        Err(DiskError::NoMemory) => OUT_OF_MEMORY,
        Err(DiskError::Missing | DiskError::Failed | DiskError::TooLong) => FAULT_WRITE,
    }
}

/// Prints the text of an answer, and then writes its file, if it has one.
fn print_whole<D: Disk, K: Sink>(alloc: Global, disk: &mut D, answer: Answer<'_>, out: &mut K) -> u8
    ensures answers { PrintsAnswer (Ok answer.entry) result (D.state disk.old) (D.state disk.new)
        (K.state out.old) (K.state out.new) }
    ensures disk { (D.state disk.old).faults ≤ (D.state disk.new).faults }
    ensures later { (K.state out.old).faults ≤ (K.state out.new).faults }
{
    match out.put(&answer.text) {
        Ok(()) => write_last(alloc, disk, answer.write, answer.status),
        Err(_) => FAULT_WRITE,
    }
}

/// Prints the text of an answer and then writes its file, if it has one; or prints why the command
/// ended before it had an answer.
pub fn print_answer<D: Disk, K: Sink>(
    alloc: Global,
    disk: &mut D,
    answer: Result<Answer<'_>, Stop<'_>>,
    out: &mut K,
) -> u8
    ensures answers { PrintsAnswer answer.entry result (D.state disk.old) (D.state disk.new)
        (K.state out.old) (K.state out.new) }
    ensures disk { (D.state disk.old).faults ≤ (D.state disk.new).faults }
    ensures later { (K.state out.old).faults ≤ (K.state out.new).faults }
{
    match answer {
        Ok(answer) => print_whole(alloc, disk, answer, out),
        Err(stop) => print_stop(alloc, stop, out),
    }
}
