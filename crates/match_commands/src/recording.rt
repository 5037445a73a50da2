//! Drills that are recorded.
ghost use Rattle.std.specs.Prelude.{◌≡◌, ◌≤◌};
ghost use Rattle.drill.specs.Drilled.{IsLeftBy};
ghost use Rattle.drill_words.specs.Drill.{plain_of};
ghost use Rattle.game_model.specs.Setup.{Setup};
ghost use Rattle.command_answers.specs.declared.statuses.TheConstants.{DONE};
ghost use Rattle.command_answers.specs.Writing.{AnswersReply, WritesLast};
ghost use Rattle.replay_commands.specs.Matches.{game_match};
ghost use Rattle.replay_commands.specs.Records.{drill_record, ReplaysDrill};
ghost use Rattle.match_commands.specs.Drills.{recording_reply, RecordReplays, RecordsDrill};

use command_answers::{DONE, FAULT_WRITE, FileBytes, OUT_OF_MEMORY, Stop, print_stop, write_last};
use drill::{Drilled, RunFault, run_drill};
use drill_words::Drill;
use game_io::{Disk, Sink};
use replay_commands::record_bytes;
use std::alloc::Global;
use tick_core::{Game, GameMaker};

/// Writes the replay of a drill that was run, in a match with this rules number, to the file of
/// this name.
fn write_record<D: Disk>(
    alloc: Global,
    disk: &mut D,
    name: &str,
    number: u64,
    drill: &Drill,
    left: &Drilled<Game>,
) -> u8
    ensures writes { (setup : Setup) →
        IsLeftBy (game_match setup (plain_of drill.now)) drill.now.events left.now →
        WritesLast (recording_reply name.now number setup (plain_of drill.now)).write DONE result
        (D.state disk.old) (D.state disk.new) }
    ensures replays { (setup : Setup) →
        IsLeftBy (game_match setup (plain_of drill.now)) drill.now.events left.now →
        result ≡ DONE →
        ReplaysDrill number setup (plain_of drill.now)
        (drill_record number setup (plain_of drill.now)) }
    ensures later { (D.state disk.old).faults ≤ (D.state disk.new).faults }
{
    match record_bytes(alloc, number, drill, left) {
        Ok(bytes) => write_last(alloc, disk, Some(FileBytes { name, bytes }), DONE),
        Err(_) => OUT_OF_MEMORY,
    }
}

/// Runs a drill over the maker's rules and map, prints its report, and records it in the file of
/// this name.
fn run_recorded<D: Disk, K: Sink>(
    alloc: Global,
    disk: &mut D,
    name: &str,
    number: u64,
    maker: &GameMaker,
    drill: &Drill,
    out: &mut K,
) -> u8
    ensures records { AnswersReply (recording_reply name.now number maker.now (plain_of drill.now))
        result (D.state disk.old) (D.state disk.new) (K.state out.old) (K.state out.new) }
    ensures replays { result ≡ DONE →
        ReplaysDrill number maker.now (plain_of drill.now)
        (drill_record number maker.now (plain_of drill.now)) }
    ensures disk { (D.state disk.old).faults ≤ (D.state disk.new).faults }
    ensures later { (K.state out.old).faults ≤ (K.state out.new).faults }
{
    match run_drill(alloc, drill, maker, out) {
        Ok(left) => write_record(alloc, disk, name, number, drill, &left),
        Err(RunFault::Write) => FAULT_WRITE,
        Err(RunFault::NoMemory) => OUT_OF_MEMORY,
    }
}

/// Runs a drill, prints its report and records it in the file of this name, or prints why the
/// command ended before it.
pub(crate) fn record_drill<D: Disk, K: Sink>(
    alloc: Global,
    disk: &mut D,
    name: &str,
    made: Result<(GameMaker, Drill, u64), Stop<'_>>,
    out: &mut K,
) -> u8
    ensures records { RecordsDrill name.now made.entry result
        (D.state disk.old) (D.state disk.new) (K.state out.old) (K.state out.new) }
    ensures replays { result ≡ DONE → RecordReplays made.entry }
    ensures disk { (D.state disk.old).faults ≤ (D.state disk.new).faults }
    ensures later { (K.state out.old).faults ≤ (K.state out.new).faults }
{
    match made {
        Ok((maker, drill, number)) => {
            run_recorded(alloc, disk, name, number, &maker, &drill, out)
        }
        Err(stop) => print_stop(alloc, stop, out),
    }
}
