//! Runs drills.
ghost use Rattle.std.specs.Prelude.{◌≡◌, ◌<◌, ◌≤◌, ◌++◌, [], ◌∷◌, true, string_bytes, length, OnOk};
ghost use Rattle.std.specs.Prelude.{OnErr, IsErrOf, IfOk};
ghost use Rattle.std.specs.List.{list_all};
ghost use Rattle.base.specs.Cause.{Increased};
ghost use Rattle.drill_words.specs.Event.{event_fits};
ghost use Rattle.drill_words.specs.EventView.{event_of};
ghost use Rattle.drill.specs.Report.{closing};
ghost use Rattle.drill.specs.RunningMatch.{match_from, IsWhole};
ghost use Rattle.drill.specs.RunsEvents.{PrintsLines, CutsLines, RunsEvents};
ghost use Rattle.drill.specs.Drilled.{match_of, IsLeftBy, Reports};

use crate::closing::add_closing;
use crate::drilled::Drilled;
use crate::event_lines::{EventLines, NoLines, PrintedLines, Untold, flush};
use crate::opening::open;
use crate::run_fault::RunFault;
use crate::running_match::RunningMatch;
use base::NoMemory;
use drill_words::{Drill, EventList, EventView, MAX_EVENTS};
use frame_core::{Maker, Sim};
use game_io::Sink;
use std::alloc::{AllocError, Global};

/// Runs a drill, and writes its report: a line for each event as it happens, then the closing
/// lines for each client's column, each peer, the server and each alarm, and `end`.
///
/// Every world is made by the maker from the drill's seed and number of clients. What is handed
/// back is as the events left it: the world of the server and that of each peer is the agreed
/// world after its own ticked frames. `Err` with `Write` only where the sink's count of faults
/// rose, or with `NoMemory`; the sink then got a prefix of the report.
pub fn run_drill<M: Maker, K: Sink>(
    alloc: Global,
    d: &Drill,
    maker: &M,
    out: &mut K,
) -> Result<Drilled<M::World>, RunFault>
    ensures { Reports
        (match_of M.World.after M.World.hash_of M.World.summary_of (M.made maker.now)
        d.now.seed d.now.clients d.now.lag)
        d.now.events (K.state out.old) (K.state out.new) result }
{
    let Ok(mut run) = open(alloc, maker, d.seed, d.clients, d.lag) else {
        return Err(RunFault::NoMemory);
    };
    let mut lines = PrintedLines {
        text: String::new(alloc),
    };
    if let Err(fault) = run_events(&mut run, &d.events, &mut lines, out) {
        return Err(fault);
    }
    let left = run.into_drilled();
    if let Err(fault) = finish(&left, &mut lines.text, out) {
        return Err(fault);
    }
    Ok(left)
}

/// Runs a drill as [`run_drill`] does, and hands back the same, but makes no report. It fails only
/// where it is out of memory.
pub fn run_without_report<M: Maker>(
    alloc: Global,
    d: &Drill,
    maker: &M,
) -> Result<Drilled<M::World>, NoMemory>
    ensures { IfOk result (λ left. IsLeftBy
        (match_of M.World.after M.World.hash_of M.World.summary_of (M.made maker.now)
        d.now.seed d.now.clients d.now.lag)
        d.now.events left) }
{
    let mut run = open(alloc, maker, d.seed, d.clients, d.lag)?;
    let Ok(()) = run_events(&mut run, &d.events, &mut NoLines, &mut Untold) else {
        return Err(AllocError);
    };
    Ok(run.into_drilled())
}

/// Runs all events, and takes their lines.
fn run_events<'a, W: Sim, K: Sink, L: EventLines<K>>(
    run: &mut RunningMatch<'a, W>,
    events: &'a EventList,
    lines: &mut L,
    out: &mut K,
) -> Result<(), RunFault>
    requires whole { IsWhole run.old }
    requires fit { list_all (event_fits run.old.clients) events.now ≡ true }
    requires few { length events.now ≤ MAX_EVENTS }
    ensures clients { run.new.clients ≡ run.old.clients }
    ensures lag { run.new.lag ≡ run.old.lag }
    ensures runs { RunsEvents (match_from W.after W.hash_of W.summary_of run.old) 0 events.now
        run.old (K.state out.old).written (L.kept lines.old)
        run.new (K.state out.new).written (L.kept lines.new) result }
    ensures later { (K.state out.old).faults ≤ (K.state out.new).faults }
    ensures failed { IsErrOf result RunFault.Write →
        Increased (K.state out.old).faults (K.state out.new).faults }
{
    for number in 0..events.len() {
        let event = events.get(number);
        if let Err(fault) = take_event(run, number as u32, event, lines, out) {
            return Err(fault);
        }
    }
    Ok(())
}

/// Runs an event, and takes its line.
fn take_event<'a, W: Sim, K: Sink, L: EventLines<K>>(
    run: &mut RunningMatch<'a, W>,
    number: u32,
    event: EventView<'a>,
    lines: &mut L,
    out: &mut K,
) -> Result<(), RunFault>
    requires whole { IsWhole run.old }
    requires fits { event_fits run.old.clients (event_of event) ≡ true }
    ensures clients { run.new.clients ≡ run.old.clients }
    ensures lag { run.new.lag ≡ run.old.lag }
    ensures runs { RunsEvents (match_from W.after W.hash_of W.summary_of run.old)
        number (event_of event.entry ∷ []) run.old (K.state out.old).written (L.kept lines.old)
        run.new (K.state out.new).written (L.kept lines.new) result }
    ensures later { (K.state out.old).faults ≤ (K.state out.new).faults }
    ensures failed { IsErrOf result RunFault.Write →
        Increased (K.state out.old).faults (K.state out.new).faults }
{
    let Ok(outcome) = run.run_event(event) else {
        return Err(RunFault::NoMemory);
    };
    lines.take(number, &outcome, out)
}

/// Prints the closing lines, and all that is kept back.
fn finish<W: Sim, K: Sink>(
    left: &Drilled<W>,
    text: &mut String,
    out: &mut K,
) -> Result<(), RunFault>
    ensures printed { OnOk result (PrintsLines (K.state out.old).written (string_bytes text.old)
        (K.state out.new).written (string_bytes text.new)
        (closing W.hash_of W.summary_of left.now.server left.now.peers)) }
    ensures empty { OnOk result (string_bytes text.new ≡ []) }
    ensures cut { OnErr result (CutsLines (K.state out.old).written (string_bytes text.old)
        (K.state out.new).written (closing W.hash_of W.summary_of left.now.server left.now.peers)) }
    ensures later { (K.state out.old).faults ≤ (K.state out.new).faults }
    ensures failed { IsErrOf result RunFault.Write →
        Increased (K.state out.old).faults (K.state out.new).faults }
{
    let Ok(()) = add_closing(text, left) else {
        return Err(RunFault::NoMemory);
    };
    flush(text, out)
}
