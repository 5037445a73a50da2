ghost use Rattle.std.specs.Prelude.{◌≡◌, []};

use crate::case::Case;
use crate::left::Left;
use base::NoMemory;
use game_io::{Disk, Net, NoGate, Sink, Source};
use match_commands::{may_wait, run, run_waiting};
use std::alloc::Global;
use std::sync::Wait;
use std::thread::Threads;

/// Runs the command line of a case.
pub fn run_case<R: Threads + Wait + Sync>(
    rt: &R,
    alloc: Global,
    case: &Case<'_>,
) -> Result<Left, NoMemory> {
    let words = case.words.as_slice();
    let mut disk = case.disk(alloc)?;
    let mut out = case.output(alloc)?;
    let mut net = case.net(alloc)?;
    let mut console = case.console(alloc)?;
    let status = run_words(
        rt,
        alloc,
        words,
        &mut disk,
        &mut out,
        &mut net,
        &mut console,
    );
    Ok(Left {
        status,
        out,
        disk,
        net,
    })
}

/// Runs a command line, by the top call that has its command. The net has given no link.
fn run_words<D: Disk, K: Sink, N: Net, C: Source + Send, R: Threads + Wait + Sync>(
    rt: &R,
    alloc: Global,
    words: &[String],
    disk: &mut D,
    out: &mut K,
    net: &mut N,
    console: &mut C,
) -> u8
    requires { (N.state net.old).given ≡ [] }
{
    if may_wait(words) {
        run_waiting(rt, alloc, words, disk, out, net, console, &NoGate)
    } else {
        run(alloc, words, disk, out)
    }
}
