use crate::case::Case;
use crate::case_reader::CaseReader;
use crate::ending::Ending;
use crate::left::Left;
use crate::read_fault::ReadFault;
use crate::running::run_case;
use crate::sent::Sent;
use crate::server_world::server_world;
use base::NoMemory;
use game_io::{MemDisk, MemNet, Net};
use std::alloc::Global;
use std::sync::Wait;
use std::thread::Threads;

/// What the cases of a file show.
pub enum Shown<'a> {
    /// So many cases, each answered as recorded.
    AllRight(u64),
    /// The first that isn't.
    Wrong(&'a str),
}

/// Runs all cases in these bytes, up to the first that isn't answered as recorded.
pub fn run_cases<'a, R: Threads + Wait + Sync>(
    rt: &R,
    alloc: Global,
    bytes: &'a [u8],
) -> Result<Shown<'a>, ReadFault> {
    let mut reader = CaseReader::new(bytes);
    for number in 0..u64::MAX {
        if reader.is_done() {
            return Ok(Shown::AllRight(number));
        }
        let case = reader.next_case(alloc)?;
        if !is_right(rt, alloc, &case)? {
            return Ok(Shown::Wrong(case.name));
        }
    }
    Ok(Shown::AllRight(u64::MAX))
}

/// Whether a case is answered as recorded.
fn is_right<R: Threads + Wait + Sync>(
    rt: &R,
    alloc: Global,
    case: &Case<'_>,
) -> Result<bool, NoMemory> {
    let left = run_case(rt, alloc, case)?;
    let answered = is_ended(alloc, case, &left)? && is_left(&left.disk, case);
    Ok(answered && is_world_right(alloc, case)?)
}

/// Whether a run ended in one of the ways in which the case may end.
fn is_ended(alloc: Global, case: &Case<'_>, left: &Left) -> Result<bool, NoMemory> {
    for ending in &case.endings {
        if is_ending(alloc, ending, left)? {
            return Ok(true);
        }
    }
    Ok(false)
}

/// Whether a run ended in this way.
fn is_ending(alloc: Global, ending: &Ending<'_>, left: &Left) -> Result<bool, NoMemory> {
    if left.status != ending.status || left.out.bytes() != ending.text {
        return Ok(false);
    }
    is_sent(alloc, ending.sent.as_slice(), &left.net)
}

/// Whether this was written to the links of a net, and nothing to any further one.
fn is_sent(alloc: Global, sent: &[Sent<'_>], net: &MemNet) -> Result<bool, NoMemory> {
    if net.links() as usize > sent.len() {
        return Ok(false);
    }
    for (link, sent) in (0..u32::MAX).zip(sent) {
        let written = net.written(link).unwrap_or(&[]);
        if !sent.is_in(alloc, written)? {
            return Ok(false);
        }
    }
    Ok(true)
}

/// Whether the server of a drill is left in the world that the case has, if it has one.
fn is_world_right(alloc: Global, case: &Case<'_>) -> Result<bool, NoMemory> {
    let Some(wanted) = case.world else {
        return Ok(true);
    };
    match server_world(alloc, case)? {
        Some(text) => Ok(text.as_bytes() == wanted),
        None => Ok(false),
    }
}

/// Whether each file that the case names is there as it should be after the run.
fn is_left(disk: &MemDisk, case: &Case<'_>) -> bool {
    case.words
        .iter()
        .all(|word| disk.file(word) == content(word, case))
}

/// What a file must hold after the run, if it must be there.
fn content<'a>(name: &str, case: &Case<'a>) -> Option<&'a [u8]> {
    if case.gone.iter().any(|gone| *gone == name) {
        return None;
    }
    let written = case.written.iter();
    let mut both = written.chain(case.files.iter());
    let file = both.find(|file| file.name == name)?;
    Some(file.bytes)
}
