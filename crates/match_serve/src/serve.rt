//! The whole match: it is opened, run on threads, and closed.
ghost use Rattle.std.specs.Prelude.{◌≡◌, ◌+◌, ◌^◌, ◌<◌, ◌≤◌, ℕ, List, Option, [], length};
ghost use Rattle.std.specs.Prelude.{replicate, drop};
ghost use Rattle.std.specs.Prelude.{IfOk, IfErr};
ghost use Rattle.std.specs.Option.{option_map};
ghost use Rattle.base.specs.Cause.{Increased};
ghost use Rattle.game_orders.specs.declared.limits.TheConstants.{MAX_CLIENTS};
ghost use Rattle.frame_table.specs.Calls.{view_of};
ghost use Rattle.report_line.specs.Reports.{heard, joined, ends_of};
ghost use Rattle.match_serve.specs.Passes.{IsOpening};
ghost use Rattle.match_serve.specs.Heard.{HasHeard};
ghost use Rattle.match_serve.specs.Watching.{AreNewKicks};
ghost use Rattle.match_serve.specs.Seats.{AreNewPieces, shares_of};
ghost use Rattle.match_serve.specs.Serve.{ServesMatch};

use crate::accepting::accept_links;
use crate::handing::close_links;
use crate::hearing::take_reports;
use crate::kicks::Kicks;
use crate::leaving::leave_all;
use crate::link_end::LinkEnd;
use crate::opening::free_table;
use crate::running::run_threads;
use crate::serve_fault::ServeFault;
use crate::served::Served;
use crate::served_link::ServedLink;
use arrayvec::ArrayVec;
use base::{List, NoMemory};
use frame_core::Sim;
use frame_table::{FrameTable, Pass};
use game_io::{MatchEvent, Net, NoWatch, Source, Watch};
use match_net::{
    Invite, ReportEnds, ReportReceiver, report_queue, reports_of_each_client_are_heard,
};
use server_core::Board;
use std::alloc::Global;
use std::sync::Wait;
use std::thread::Threads;

/// Serves a match over links. It listens at `at` and accepts as many links as the invite has
/// clients, the first for client 0; each is told the invite with its own number. The world is that
/// of as many clients, and has made no step; the net has given no link.
///
/// All links are served at once: each is greeted, its client's plays go into the client's column
/// and its reports to the board, and it is sent all columns. The calling thread ticks every frame
/// that is ready and notes the world's hash after it. A line `kick C` of the console, `C` a
/// client's number in decimal without leading zeros, lets that client leave; other lines have no
/// effect, and a console that fails counts as ended. The call returns once every client has left
/// and the console has ended or given one more line, and only if its threads do.
///
/// The match has the table that the links filled. Its pass has the whole share, and has seen and
/// knows each whole column: the plays that the link's bytes put, and then the departure. Its world
/// is the one that was given, stepped by the frames of these columns, as many as the longest has.
/// Each link was handed back to the net, and of each it is told how many bytes were taken from it:
/// those of its greeting among them, and those that were lost where memory ran out. A link that
/// fails, is refused or finds no memory ends alone.
///
/// What was written to a link is of what its greeting is answered: the welcome and the first
/// entries of each column, in order, or the refusal. It is all of that where no half of the link
/// failed and memory did not run out for it. The end is `Kicked` only where a line of the console
/// kicked the client, and `Lost` only where a half of the link failed.
///
/// `Net` only where the net's count of faults rose in this call.
pub fn serve_match<S: Sim, N: Net, C: Source + Send, R: Threads + Wait + Sync>(
    rt: &R,
    alloc: Global,
    invite: &Invite,
    at: &str,
    sim: S,
    net: &mut N,
    console: &mut C,
) -> Result<Served<S>, ServeFault>
    requires least { 1 ≤ invite.now.clients }
    requires most { invite.now.clients ≤ MAX_CLIENTS }
    requires clients { S.clients_of sim ≡ invite.now.clients }
    requires fresh { S.steps sim ≡ 0 }
    requires no_links { (N.state net.old).given ≡ [] }
    ensures served { IfOk result (λ served. ServesMatch (record {
      start = sim;
      after = S.after;
      hash = S.hash_of;
      summary = S.summary_of;
      clients = invite.now.clients;
      lag = 0;
    })
        invite.now (N.state net.old).coming (C.state console.old) (C.state console.new)
        (N.state net.new) served.sim (S.steps served.sim)
        served.table served.pass served.board served.ends served.taken) }
    ensures clients { IfOk result (λ served. S.clients_of served.sim ≡ S.clients_of sim) }
    ensures net { IfErr result (λ fault. fault ≡ ServeFault.Net →
        Increased (N.state net.old).faults (N.state net.new).faults) }
{
    let watch = NoWatch::lent();
    serve_watched(rt, alloc, invite, at, sim, net, console, watch)
}

/// Serves a match over links as [`serve_match`] does, and tells the watch what happens: where the
/// server listens, each link that comes and how it greets, each frame that is ticked and each
/// departure before its frame, for whom the match waits, and its end. Several threads tell it at
/// once.
pub fn serve_watched<S: Sim, N: Net, C: Source + Send, W: Watch + Sync, R: Threads + Wait + Sync>(
    rt: &R,
    alloc: Global,
    invite: &Invite,
    at: &str,
    sim: S,
    net: &mut N,
    console: &mut C,
    watch: &W,
) -> Result<Served<S>, ServeFault>
    requires least { 1 ≤ invite.now.clients }
    requires most { invite.now.clients ≤ MAX_CLIENTS }
    requires clients { S.clients_of sim ≡ invite.now.clients }
    requires fresh { S.steps sim ≡ 0 }
    requires no_links { (N.state net.old).given ≡ [] }
    ensures served { IfOk result (λ served. ServesMatch (record {
      start = sim;
      after = S.after;
      hash = S.hash_of;
      summary = S.summary_of;
      clients = invite.now.clients;
      lag = 0;
    })
        invite.now (N.state net.old).coming (C.state console.old) (C.state console.new)
        (N.state net.new) served.sim (S.steps served.sim)
        served.table served.pass served.board served.ends served.taken) }
    ensures clients { IfOk result (λ served. S.clients_of served.sim ≡ S.clients_of sim) }
    ensures net { IfErr result (λ fault. fault ≡ ServeFault.Net →
        Increased (N.state net.old).faults (N.state net.new).faults) }
{
    let board = Board::create(alloc, invite.clients)?;
    let kicks = no_kicks(alloc, invite.clients)?;
    let ends = no_ends(alloc, invite.clients)?;
    let taken = none_taken(alloc, invite.clients)?;
    let (table, mut pass) = free_table(alloc, invite.clients)?;
    let ReportEnds {
        ends: reports,
        receiver,
    } = report_queue(alloc, invite.clients)?;
    if net.listen(at).is_err() {
        return Err(ServeFault::Net);
    }
    let place = net.listens_at();
    watch.log(MatchEvent::Listens { at: place });
    let pieces = accept_links(
        alloc,
        net,
        &table,
        &mut pass,
        invite,
        reports.into_vec(),
        watch,
    )?;
    net.stop_listening();
    let served = serve_opened(
        rt,
        alloc,
        invite,
        table,
        pass,
        receiver,
        pieces.into_vec(),
        board,
        kicks,
        ends,
        taken,
        sim,
        net,
        console,
        watch,
    )?;
    Ok(served)
}

/// Nothing was read of the console, and nobody was kicked.
fn no_kicks(alloc: Global, clients: u8) -> Result<Kicks, NoMemory>
    ensures { IfOk result (λ kicks. AreNewKicks clients kicks) }
{
    let mut kicked = Vec::new(alloc);
    for _client in 0..clients {
        kicked.push(false)?;
    }
    Ok(Kicks {
        line: ArrayVec::new(),
        kicked,
    })
}

/// A place for the end of each link.
fn no_ends(alloc: Global, clients: u8) -> Result<Vec<LinkEnd>, NoMemory>
    ensures { IfOk result (λ ends. length ends.items ≡ clients) }
{
    let mut ends = Vec::new(alloc);
    for _client in 0..clients {
        ends.push(LinkEnd::Memory)?;
    }
    Ok(ends)
}

/// A place for the number of bytes that are taken from each link.
fn none_taken(alloc: Global, clients: u8) -> Result<Vec<u64>, NoMemory>
    ensures { IfOk result (λ taken. length taken.items ≡ clients) }
{
    let mut taken = Vec::new(alloc);
    for _client in 0..clients {
        taken.push(0)?;
    }
    Ok(taken)
}

/// Serves the accepted links of a match to its end, and hands them back.
fn serve_opened<S: Sim, N: Net, C: Source + Send, W: Watch + Sync, R: Threads + Wait + Sync>(
    rt: &R,
    alloc: Global,
    invite: &Invite,
    table: FrameTable,
    pass: Pass,
    receiver: ReportReceiver,
    pieces: Vec<ServedLink<N::In, N::Out>>,
    board: Board,
    kicks: Kicks,
    ends: Vec<LinkEnd>,
    taken: Vec<u64>,
    sim: S,
    net: &mut N,
    console: &mut C,
    watch: &W,
) -> Result<Served<S>, NoMemory>
    requires most { invite.now.clients ≤ MAX_CLIENTS }
    requires opening { IsOpening invite.now.clients table invite.now.clients pass }
    requires enough { 2 ≤ (view_of pass).share }
    requires shares { (view_of pass).share + shares_of pieces.items ≡ 2 ^ 62 }
    requires pieces { (coming : Option (List (List ℕ))) × AreNewPieces invite.now.clients table
        invite.now receiver coming 0 pieces.items }
    requires count { length pieces.items ≡ invite.now.clients }
    requires given { length (N.state net.old).given ≡ invite.now.clients }
    requires ends_of { ends_of receiver ≡ invite.now.clients }
    requires unheard { heard receiver ≡ [] }
    requires unjoined { joined receiver ≡ [] }
    requires board { board.reports ≡ replicate invite.now.clients [] }
    requires unwanted { board.wanted ≡ [] }
    requires kicks { AreNewKicks invite.now.clients kicks }
    requires ends { length ends.items ≡ invite.now.clients }
    requires taken { length taken.items ≡ invite.now.clients }
    requires clients { S.clients_of sim ≡ invite.now.clients }
    requires fresh { S.steps sim ≡ 0 }
    ensures served { IfOk result (λ served. (coming : Option (List (List ℕ))) →
        AreNewPieces invite.now.clients table invite.now receiver coming 0 pieces.items →
        (N.state net.old).coming ≡ option_map (drop invite.now.clients) coming →
        ServesMatch (record {
          start = sim;
          after = S.after;
          hash = S.hash_of;
          summary = S.summary_of;
          clients = invite.now.clients;
          lag = 0;
        }) invite.now coming (C.state console.old) (C.state console.new)
        (N.state net.new) served.sim (S.steps served.sim) served.table served.pass served.board
        served.ends served.taken) }
    ensures clients { IfOk result (λ served. S.clients_of served.sim ≡ S.clients_of sim) }
{
    let (mut pass, mut receiver, mut pieces) = (pass, receiver, pieces);
    let (mut board, mut kicks, mut ends, mut sim) = (board, kicks, ends, sim);
    let mut taken = taken;
    let mut watching = table.split(&mut pass);
    run_threads(
        rt,
        alloc,
        &table,
        invite.clients,
        pieces.as_mut_slice(),
        &mut watching,
        console,
        &mut kicks,
        &mut pass,
        &mut receiver,
        &mut board,
        &mut sim,
        watch,
    )?;
    table.join(&mut pass, watching);
    close_links(
        net,
        &table,
        &mut pass,
        &mut receiver,
        invite,
        pieces,
        kicks.kicked.as_slice(),
        ends.as_mut_slice(),
        taken.as_mut_slice(),
    );
    take_reports(rt, &mut receiver, &mut board)?;
    leave_all(rt, &table, &mut pass, invite.clients);
    reports_of_each_client_are_heard();
    Ok(Served {
        sim,
        table,
        pass,
        board,
        ends: List::from_vec(ends),
        taken: List::from_vec(taken),
    })
}
