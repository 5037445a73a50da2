//! How the links of a match are accepted.
ghost use Rattle.std.specs.Prelude.{◌≡◌, ◌+◌, ◌*◌, ◌^◌, ◌<◌, ◌≤◌, ◌++◌, ◌∷◌, [], None, length};
ghost use Rattle.std.specs.Prelude.{drop};
ghost use Rattle.std.specs.Prelude.{IfOk, IfErr, OnOk};
ghost use Rattle.std.specs.Option.{option_map};
ghost use Rattle.base.specs.Cause.{Increased};
ghost use Rattle.game_orders.specs.declared.limits.TheConstants.{MAX_CLIENTS};
ghost use Rattle.game_io.specs.NetState.{IsNewLink};
ghost use Rattle.frame_table.specs.Calls.{view_of};
ghost use Rattle.report_line.specs.declared.report_receiver.ReportReceiver.{ReportReceiver};
ghost use Rattle.report_line.specs.Reports.{AreNewEnds, pushed};
ghost use Rattle.match_serve.specs.Passes.{IsOpening};
ghost use Rattle.match_serve.specs.Seats.{IsNewSeat, IsNewPiece, AreNewPieces, seat_share};
ghost use Rattle.match_serve.specs.Seats.{shares_of};
ghost use Rattle.match_serve.specs.Seats.{invite_of};

use crate::opening::new_seat;
use crate::serve_fault::ServeFault;
use crate::served_link::ServedLink;
use base::List;
use frame_table::{FrameTable, Pass};
use game_io::{MatchEvent, Net, Watch};
use match_net::{Invite, Reports};
use order_packets::UpFeeder;
use std::alloc::Global;

/// Accepts the link of a client, with what it is served with.
fn accept_link<N: Net>(
    alloc: Global,
    net: &mut N,
    table: &FrameTable,
    pass: &mut Pass,
    invite: &Invite,
    client: u8,
    reports: Reports,
) -> Result<ServedLink<N::In, N::Out>, ServeFault>
    requires opening { IsOpening invite.now.clients table.now client pass.old }
    requires client { client < invite.now.clients }
    requires most { invite.now.clients ≤ MAX_CLIENTS }
    requires share { 4 ≤ (view_of pass.old).share }
    requires unpushed { pushed reports ≡ [] }
    requires given { length (N.state net.old).given ≡ client }
    ensures opening { OnOk result (IsOpening invite.now.clients table.now (client + 1) pass.new) }
    ensures seat { IfOk result (λ piece. IsNewSeat invite.now.clients table.now piece.seat) }
    ensures told { IfOk result (λ piece. piece.seat.invite ≡ invite_of invite.now client) }
    ensures reports { IfOk result (λ piece. piece.seat.reading.reports ≡ reports) }
    ensures link { IfOk result (λ piece.
        IsNewLink (N.state net.old).coming piece.input piece.output) }
    ensures shares { IfOk result (λ piece.
        (view_of pass.new).share + seat_share piece.seat ≡ (view_of pass.old).share) }
    ensures half { OnOk result ((view_of pass.old).share ≤ 2 * (view_of pass.new).share) }
    ensures given { OnOk result
        ((N.state net.new).given ≡ (N.state net.old).given ++ None ∷ []) }
    ensures coming { OnOk result
        ((N.state net.new).coming ≡ option_map (drop 1) (N.state net.old).coming) }
    ensures later { (N.state net.old).faults ≤ (N.state net.new).faults }
    ensures err { IfErr result (λ fault. fault ≡ ServeFault.Net →
        Increased (N.state net.old).faults (N.state net.new).faults) }
{
    let feeder = UpFeeder::create(alloc)?;
    let Ok((input, output)) = net.accept() else {
        return Err(ServeFault::Net);
    };
    let seat = new_seat(table, pass, invite, client, feeder, reports);
    Ok(ServedLink {
        input,
        output,
        seat,
    })
}

/// Accepts the links of a match, client by client, each with what it is served with: an end of the
/// queue of reports, and two parts of the pass, one of which feeds the client's column.
pub(crate) fn accept_links<N: Net, W: Watch>(
    alloc: Global,
    net: &mut N,
    table: &FrameTable,
    pass: &mut Pass,
    invite: &Invite,
    ends: Vec<Reports>,
    watch: &W,
) -> Result<List<ServedLink<N::In, N::Out>>, ServeFault>
    requires opening { IsOpening invite.now.clients table.now 0 pass.old }
    requires most { invite.now.clients ≤ MAX_CLIENTS }
    requires share { (view_of pass.old).share ≡ 2 ^ 62 }
    requires none_given { (N.state net.old).given ≡ [] }
    requires ends { (receiver : ReportReceiver) × AreNewEnds invite.now.clients ends.items receiver }
    ensures opening { OnOk result
        (IsOpening invite.now.clients table.now invite.now.clients pass.new) }
    ensures pieces { IfOk result (λ pieces. (receiver : ReportReceiver) →
        AreNewEnds invite.now.clients ends.items receiver →
        AreNewPieces invite.now.clients table.now invite.now receiver (N.state net.old).coming 0
        pieces) }
    ensures count { IfOk result (λ pieces. length pieces ≡ invite.now.clients) }
    ensures shares { IfOk result (λ pieces.
        (view_of pass.new).share + shares_of pieces ≡ 2 ^ 62) }
    ensures enough { OnOk result (2 ≤ (view_of pass.new).share) }
    ensures given { OnOk result (length (N.state net.new).given ≡ invite.now.clients) }
    ensures coming { OnOk result ((N.state net.new).coming
        ≡ option_map (drop invite.now.clients) (N.state net.old).coming) }
    ensures later { (N.state net.old).faults ≤ (N.state net.new).faults }
    ensures err { IfErr result (λ fault. fault ≡ ServeFault.Net →
        Increased (N.state net.old).faults (N.state net.new).faults) }
{
    let mut ends = ends;
    let mut pieces = List::new(alloc);
    for client in 0..invite.clients {
        let reports = ends.remove(0);
        let piece = accept_link(alloc, net, table, pass, invite, client, reports)?;
        let from = net.came_from();
        watch.log(MatchEvent::LinkCame { client, from });
        pieces.push(piece)?;
    }
    Ok(pieces)
}
