//! The thread that ticks.
ghost use Rattle.std.specs.Prelude.{◌≡◌, ◌+◌, ◌<◌, ◌≤◌, ℕ, [], length, true, OnOk, OnErr};
ghost use Rattle.game_orders.specs.declared.entry.Entry.{Entry};
ghost use Rattle.game_orders.specs.declared.limits.TheConstants.{MAX_CLIENTS, MAX_FRAMES};
ghost use Rattle.frame_core.specs.Match.{Match};
ghost use Rattle.frame_table.specs.Calls.{view_of, standing, HasSeen};
ghost use Rattle.report_line.specs.Reports.{heard, joined, IsSameReceiver};
ghost use Rattle.match_serve.specs.Heard.{HasHeard};
ghost use Rattle.match_serve.specs.Passes.{IsServePass};
ghost use Rattle.match_serve.specs.Ticks.{FrameTaken, TicksOnce, TicksAll};

use crate::hearing::take_reports;
use crate::leaving::leave_all;
use crate::logging::TickLog;
use base::NoMemory;
use frame_core::{Ready, Sim};
use frame_table::{FrameTable, Pass};
use game_io::Watch;
use game_orders::Frame;
use idle_pause::Pause;
use match_net::ReportReceiver;
use server_core::Board;
use std::sync::Wait;

/// Ticks each frame that is ready and takes the reports that have come, until the match is over. It
/// fails only where it is out of memory; then every client has left, and the match is over too.
pub(crate) fn tick_all<S: Sim, W: Watch, R: Wait>(
    rt: &R,
    table: &FrameTable,
    pass: &mut Pass,
    clients: u8,
    receiver: &mut ReportReceiver,
    board: &mut Board,
    sim: &mut S,
    watch: &W,
) -> Result<(), NoMemory>
    requires pass { IsServePass clients table.now pass.old }
    requires unwanted { board.old.wanted ≡ [] }
    requires boards { length board.old.reports ≡ clients }
    requires clients { S.clients_of sim.old ≡ clients }
    requires most { clients ≤ MAX_CLIENTS }
    requires fresh { S.steps sim.old ≡ 0 }
    requires heard { HasHeard clients board.old.reports (heard receiver.old) }
    ensures pass { IsServePass clients table.now pass.new }
    ensures share { (view_of pass.new).share ≡ (view_of pass.old).share }
    ensures boards { length board.new.reports ≡ clients }
    ensures ticked { OnOk result (TicksAll (record {
      start = sim.old;
      after = S.after;
      hash = S.hash_of;
      summary = S.summary_of;
      clients = clients;
      lag = 0;
    }) clients (view_of pass.old) (view_of pass.new) board.new.wanted
        (S.steps sim.new) sim.new) }
    ensures clients { OnOk result (S.clients_of sim.new ≡ S.clients_of sim.old) }
    ensures heard { OnOk result (HasHeard clients board.new.reports (heard receiver.new)) }
    ensures gone { OnErr result ((c : ℕ) → c < clients →
        (standing pass.new c).known.left ≡ true) }
    ensures joined { joined receiver.new ≡ joined receiver.old }
    ensures same { IsSameReceiver receiver.old receiver.new }
{
    let mut log = TickLog::new(watch);
    let ticked = tick_ready(rt, table, pass, clients, receiver, board, sim, &mut log);
    if ticked.is_err() {
        leave_all(rt, table, pass, clients);
        log.over();
    }
    ticked
}

/// Ticks each frame that is ready, until the match is over or memory runs out.
fn tick_ready<S: Sim, W: Watch, R: Wait>(
    rt: &R,
    table: &FrameTable,
    pass: &mut Pass,
    clients: u8,
    receiver: &mut ReportReceiver,
    board: &mut Board,
    sim: &mut S,
    log: &mut TickLog<'_, W>,
) -> Result<(), NoMemory>
    requires pass { IsServePass clients table.now pass.old }
    requires unwanted { board.old.wanted ≡ [] }
    requires boards { length board.old.reports ≡ clients }
    requires clients { S.clients_of sim.old ≡ clients }
    requires most { clients ≤ MAX_CLIENTS }
    requires fresh { S.steps sim.old ≡ 0 }
    requires heard { HasHeard clients board.old.reports (heard receiver.old) }
    ensures pass { IsServePass clients table.now pass.new }
    ensures share { (view_of pass.new).share ≡ (view_of pass.old).share }
    ensures boards { length board.new.reports ≡ clients }
    ensures ticked { OnOk result (TicksAll (record {
      start = sim.old;
      after = S.after;
      hash = S.hash_of;
      summary = S.summary_of;
      clients = clients;
      lag = 0;
    }) clients (view_of pass.old) (view_of pass.new) board.new.wanted
        (S.steps sim.new) sim.new) }
    ensures clients { OnOk result (S.clients_of sim.new ≡ S.clients_of sim.old) }
    ensures heard { OnOk result (HasHeard clients board.new.reports (heard receiver.new)) }
    ensures joined { joined receiver.new ≡ joined receiver.old }
    ensures same { IsSameReceiver receiver.old receiver.new }
{
    let mut n: u32 = 0;
    let mut pause = Pause::new();
    for _turn in rt.forever() {
        take_reports(rt, receiver, board)?;
        match table.ready(pass, n) {
            Ready::Yes => {
                tick(rt, table, pass, n, clients, board, sim, log)?;
                n += 1;
                pause.end();
                log.ticked(n);
            }
            Ready::NotYet(client) => {
                log.waits_for(n, client);
                pause.rest(rt);
            }
            Ready::Over => {
                let departures = take_frame(rt, table, pass, n, clients);
                log.departures(n, &departures);
                log.over();
                return Ok(());
            }
        }
    }
    unreachable!()
}

/// Steps the world by frame `n`, which the pass has seen of each client, and notes its hash then.
fn tick<S: Sim, W: Watch, R: Wait>(
    rt: &R,
    table: &FrameTable,
    pass: &mut Pass,
    n: u32,
    clients: u8,
    board: &mut Board,
    sim: &mut S,
    log: &mut TickLog<'_, W>,
) -> Result<(), NoMemory>
    requires pass { IsServePass clients table.now pass.old }
    requires boards { length board.old.reports ≡ clients }
    requires clients { S.clients_of sim.old ≡ clients }
    requires most { clients ≤ MAX_CLIENTS }
    requires steps { S.steps sim.old ≡ n }
    requires limit { n < MAX_FRAMES }
    requires seen { (c : ℕ) → c < clients →
        HasSeen (standing pass.old c).reach n }
    ensures pass { IsServePass clients table.now pass.new }
    ensures share { (view_of pass.new).share ≡ (view_of pass.old).share }
    ensures boards { length board.new.reports ≡ clients }
    ensures ticks { OnOk result (TicksOnce S.after S.hash_of clients n
        (view_of pass.old) (view_of pass.new) board.old board.new sim.old sim.new) }
    ensures clients { OnOk result (S.clients_of sim.new ≡ S.clients_of sim.old) }
    ensures steps { OnOk result (S.steps sim.new ≡ S.steps sim.old + 1) }
{
    let frame = take_frame(rt, table, pass, n, clients);
    log.departures(n, &frame);
    sim.step(&frame);
    board.wanted(sim.hash())?;
    Ok(())
}

/// Frame `n`, which the pass has seen of each client: the agreed one.
fn take_frame<R: Wait>(rt: &R, table: &FrameTable, pass: &mut Pass, n: u32, clients: u8) -> Frame
    requires pass { IsServePass clients table.now pass.old }
    requires most { clients ≤ MAX_CLIENTS }
    requires seen { (c : ℕ) → c < clients → HasSeen (standing pass.old c).reach n }
    ensures pass { IsServePass clients table.now pass.new }
    ensures taken { FrameTaken clients n (view_of pass.old) (view_of pass.new) result }
    ensures whole { length result ≡ clients }
{
    let mut frame = Frame::empty();
    for c in 0..clients {
        frame.push(table.take(rt, pass, c, n));
    }
    frame
}
