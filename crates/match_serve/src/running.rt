//! The match as a whole: it is opened, run on threads, and closed.
ghost use Rattle.std.specs.Prelude.{◌≡◌, ◌+◌, ◌^◌, ◌<◌, ◌≤◌, [], length, All, OnOk, IfOk, IfErr};
ghost use denote.Param.Send.{IsSync, IsSend};
ghost use Rattle.base.specs.Cause.{Increased};
ghost use Rattle.game_orders.specs.declared.limits.TheConstants.{MAX_CLIENTS};
ghost use Rattle.frame_table.specs.Calls.{view_of};
ghost use Rattle.report_line.specs.Reports.{heard, joined, IsSameReceiver};
ghost use Rattle.match_serve.specs.Passes.{IsServePass};
ghost use Rattle.match_serve.specs.Watching.{AreNewKicks, WatchesConsole};
ghost use Rattle.match_serve.specs.Heard.{HasHeard};
ghost use Rattle.match_serve.specs.Seats.{IsNewSeat, AreServed};
ghost use Rattle.match_serve.specs.Ticks.{TicksAll};

use crate::console::watch_console;
use crate::kicks::Kicks;
use crate::served_link::ServedLink;
use crate::serving::serve_links;
use crate::ticking::tick_all;
use base::NoMemory;
use frame_core::Sim;
use frame_table::{FrameTable, Pass};
use game_io::{Sink, Source, Watch};
use match_net::ReportReceiver;
use server_core::Board;
use std::alloc::Global;
use std::sync::Wait;
use std::thread::{Threads, join_mut};

/// Reads the console and ticks all frames, at once.
fn watch_and_tick<S: Sim, C: Source + Send, W: Watch, R: Threads + Wait + Sync>(
    rt: &R,
    table: &FrameTable,
    clients: u8,
    watching: &mut Pass,
    console: &mut C,
    kicks: &mut Kicks,
    pass: &mut Pass,
    receiver: &mut ReportReceiver,
    board: &mut Board,
    sim: &mut S,
    watch: &W,
) -> Result<(), NoMemory>
    requires watching { IsServePass clients table.now watching.old }
    requires kicks { AreNewKicks clients kicks.old }
    requires pass { IsServePass clients table.now pass.old }
    requires unwanted { board.old.wanted ≡ [] }
    requires boards { length board.old.reports ≡ clients }
    requires clients { S.clients_of sim.old ≡ clients }
    requires most { clients ≤ MAX_CLIENTS }
    requires fresh { S.steps sim.old ≡ 0 }
    requires heard { HasHeard clients board.old.reports (heard receiver.old) }
    ensures pass { IsServePass clients table.now pass.new }
    ensures share { (view_of pass.new).share ≡ (view_of pass.old).share }
    ensures boards { length board.new.reports ≡ clients }
    ensures ticked { OnOk result (TicksAll (record {
      start = sim.old;
      after = S.after;
      hash = S.hash_of;
      summary = S.summary_of;
      clients = clients;
      lag = 0;
    }) clients (view_of pass.old) (view_of pass.new) board.new.wanted
        (S.steps sim.new) sim.new) }
    ensures clients { OnOk result (S.clients_of sim.new ≡ S.clients_of sim.old) }
    ensures heard { OnOk result (HasHeard clients board.new.reports (heard receiver.new)) }
    ensures joined { joined receiver.new ≡ joined receiver.old }
    ensures same { IsSameReceiver receiver.old receiver.new }
    ensures watches { WatchesConsole clients table.now (C.state console.old) (C.state console.new)
        watching.old watching.new kicks.new.kicked.items }
{
    let mut read = ||
        requires { IsServePass clients table.now watching.now × (clients ≤ MAX_CLIENTS)
            × AreNewKicks clients kicks.now }
        ensures { WatchesConsole clients table.entry.now (C.state console.entry.now)
            (C.state console.exit.now) watching.entry.now watching.exit.now
            kicks.exit.now.kicked.items }
    { watch_console(rt, table, watching, clients, console, kicks) };
    let mut tick = || tick_all(rt, table, pass, clients, receiver, board, sim, watch);
    let (_watched, ticked) = join_mut(rt, &mut read, &mut tick);
    ticked
}

/// Serves all links, reads the console and ticks all frames, at once.
pub(crate) fn run_threads<
    S: Sim,
    C: Source + Send,
    W: Watch + Sync,
    R: Threads + Wait + Sync,
    I: Source + Send + Drop,
    O: Sink + Send + Drop,
>(
    rt: &R,
    alloc: Global,
    table: &FrameTable,
    clients: u8,
    pieces: &mut [ServedLink<I, O>],
    watching: &mut Pass,
    console: &mut C,
    kicks: &mut Kicks,
    pass: &mut Pass,
    receiver: &mut ReportReceiver,
    board: &mut Board,
    sim: &mut S,
    watch: &W,
) -> Result<(), NoMemory>
    requires pieces { All (λ piece. IsNewSeat piece.seat.invite.clients table.now piece.seat)
        pieces.old }
    requires watching { IsServePass clients table.now watching.old }
    requires kicks { AreNewKicks clients kicks.old }
    requires pass { IsServePass clients table.now pass.old }
    requires unwanted { board.old.wanted ≡ [] }
    requires boards { length board.old.reports ≡ clients }
    requires clients { S.clients_of sim.old ≡ clients }
    requires most { clients ≤ MAX_CLIENTS }
    requires fresh { S.steps sim.old ≡ 0 }
    requires heard { HasHeard clients board.old.reports (heard receiver.old) }
    ensures pass { IsServePass clients table.now pass.new }
    ensures share { (view_of pass.new).share ≡ (view_of pass.old).share }
    ensures boards { length board.new.reports ≡ clients }
    ensures ticked { OnOk result (TicksAll (record {
      start = sim.old;
      after = S.after;
      hash = S.hash_of;
      summary = S.summary_of;
      clients = clients;
      lag = 0;
    }) clients (view_of pass.old) (view_of pass.new) board.new.wanted
        (S.steps sim.new) sim.new) }
    ensures clients { OnOk result (S.clients_of sim.new ≡ S.clients_of sim.old) }
    ensures heard { OnOk result (HasHeard clients board.new.reports (heard receiver.new)) }
    ensures joined { joined receiver.new ≡ joined receiver.old }
    ensures same { IsSameReceiver receiver.old receiver.new }
    ensures pieces { AreServed table.now pieces.old pieces.new }
    ensures watches { WatchesConsole clients table.now (C.state console.old) (C.state console.new)
        watching.old watching.new kicks.new.kicked.items }
{
    let mut serve = ||
        requires { IsSync R.row × IsSync W.row × All (λ piece. IsNewSeat piece.seat.invite.clients
            table.now
            piece.seat) pieces.now }
        ensures { AreServed table.entry.now pieces.entry.now pieces.exit.now }
    { serve_links(rt, alloc, table, pieces, watch) };
    let mut run = || -> Result<(), NoMemory>
        requires { IsSync R.row × IsSend C.row × IsServePass clients table.now watching.now
            × AreNewKicks clients kicks.now × IsServePass clients table.now pass.now
            × (board.now.wanted ≡ []) × (length board.now.reports ≡ clients)
            × (S.clients_of sim.now ≡ clients) × (clients ≤ MAX_CLIENTS)
            × (S.steps sim.now ≡ 0) × HasHeard clients board.now.reports (heard receiver.now) }
        ensures { IsServePass clients table.entry.now pass.exit.now
            × ((view_of pass.exit.now).share ≡ (view_of pass.entry.now).share)
            × (length board.exit.now.reports ≡ clients)
            × OnOk result (TicksAll (record {
              start = sim.entry.now;
              after = S.after;
              hash = S.hash_of;
              summary = S.summary_of;
              clients = clients;
              lag = 0;
            }) clients
            (view_of pass.entry.now) (view_of pass.exit.now) board.exit.now.wanted
            (S.steps sim.exit.now) sim.exit.now)
            × OnOk result (S.clients_of sim.exit.now ≡ S.clients_of sim.entry.now)
            × OnOk result (HasHeard clients board.exit.now.reports (heard receiver.exit.now))
            × (joined receiver.exit.now ≡ joined receiver.entry.now)
            × IsSameReceiver receiver.entry.now receiver.exit.now
            × WatchesConsole clients table.entry.now (C.state console.entry.now)
            (C.state console.exit.now) watching.entry.now watching.exit.now
            kicks.exit.now.kicked.items }
    {
        watch_and_tick(
            rt, table, clients, watching, console, kicks, pass, receiver, board, sim, watch,
        )
    };
    let (_served, ticked) = join_mut(rt, &mut serve, &mut run);
    ticked
}
