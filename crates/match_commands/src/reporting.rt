ghost use Rattle.std.specs.Prelude.{◌≤◌};
ghost use Rattle.drill_words.specs.Drill.{plain_of};
ghost use Rattle.command_answers.specs.Printing.{MayPrintReply};
ghost use Rattle.command_answers.specs.Reply.{done};
ghost use Rattle.match_commands.specs.Drills.{drill_report, PrintsReport};

use command_answers::{DONE, FAULT_WRITE, OUT_OF_MEMORY, Stop, print_stop};
use drill::{RunFault, run_drill};
use drill_words::Drill;
use game_io::Sink;
use std::alloc::Global;
use tick_core::GameMaker;

/// Runs a drill over the maker's rules and map, and prints its report.
fn run_report<K: Sink>(alloc: Global, maker: &GameMaker, drill: &Drill, out: &mut K) -> u8
    ensures prints { MayPrintReply (done (drill_report maker.now (plain_of drill.now))) result
        (K.state out.old) (K.state out.new) }
    ensures later { (K.state out.old).faults ≤ (K.state out.new).faults }
{
    match run_drill(alloc, drill, maker, out) {
        Ok(_) => DONE,
        Err(RunFault::Write) => FAULT_WRITE,
        Err(RunFault::NoMemory) => OUT_OF_MEMORY,
    }
}

/// Runs a drill and prints its report, or why the command ended before it.
pub(crate) fn report_drill<K: Sink>(
    alloc: Global,
    made: Result<(GameMaker, Drill), Stop<'_>>,
    out: &mut K,
) -> u8
    ensures prints { PrintsReport made.entry result (K.state out.old) (K.state out.new) }
    ensures later { (K.state out.old).faults ≤ (K.state out.new).faults }
{
    match made {
        Ok((maker, drill)) => run_report(alloc, &maker, &drill, out),
        Err(stop) => print_stop(alloc, stop, out),
    }
}
