//! The command that runs a link over datagrams by a schedule.
ghost use Rattle.std.specs.Prelude.{None};
ghost use Rattle.command_words.specs.RequestPlain.{Datagrams};
ghost use Rattle.command_answers.specs.Causes.{causes_of};
ghost use Rattle.command_answers.specs.Environment.{environment};
ghost use Rattle.match_commands.specs.Run.{RunsRequest};

use command_answers::{InputFile, print_answer, print_stop, read_played_files};
use datagrams_command::datagrams_answer;
use game_io::{Disk, Sink};
use std::alloc::Global;

/// The command `datagrams`: reads a schedule of payloads and datagrams, runs it, and prints what
/// each of its events did and what was delivered. It reads no rules and no map.
pub(crate) fn run_datagrams<D: Disk, K: Sink>(
    alloc: Global,
    script: &str,
    disk: &mut D,
    out: &mut K,
) -> u8
    ensures { let old = environment (D.state disk.old) (K.state out.old) in
        let new = environment (D.state disk.new) (K.state out.new) in
        RunsRequest (Datagrams script.now) result (causes_of None old new) old new }
{
    match read_played_files(alloc, disk, &[], None, InputFile::Script(script)) {
        Ok(given) => {
            let (_files, bytes) = &given;
            print_answer(alloc, disk, datagrams_answer(alloc, script, bytes), out)
        }
        Err(stop) => print_stop(alloc, stop, out),
    }
}
