use game_io::{FailingCall, Remains};
use std::alloc::Global;

/// The calls of a case's devices that are to fail, beside those of its links.
#[derive(Drop)]
pub struct Failing {
    /// Those of the disk, reads and writes numbered together.
    pub files: Vec<FailingCall>,
    /// Those of the output.
    pub output: Vec<FailingCall>,
    /// Those of the net: `listen`, `accept` and `dial`, numbered together.
    pub net: Vec<FailingCall>,
    /// Those of the console.
    pub console: Vec<FailingCall>,
}

impl Failing {
    /// No call is to fail.
    pub fn none(alloc: Global) -> Self {
        Failing {
            files: Vec::new(alloc),
            output: Vec::new(alloc),
            net: Vec::new(alloc),
            console: Vec::new(alloc),
        }
    }
}

/// A call that is to fail, from its number, a blank, and what remains of what it was to write:
/// `old`, `nothing` or a number of bytes.
pub fn failing_call(text: &str) -> Option<FailingCall> {
    let (number, rest) = text.split_once(' ')?;
    let call = number.parse::<u32>().ok()?;
    let remains = remains(rest)?;
    Some(FailingCall { call, remains })
}

/// What remains after a call.
fn remains(text: &str) -> Option<Remains> {
    match text {
        "old" => Some(Remains::Old),
        "nothing" => Some(Remains::Nothing),
        _ => Some(Remains::Prefix(text.parse::<usize>().ok()?)),
    }
}
