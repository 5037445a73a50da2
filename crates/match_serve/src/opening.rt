//! How a match over links begins: its table, and what each link is served with.
ghost use Rattle.std.specs.Prelude.{◌≡◌, ◌+◌, ◌*◌, ◌^◌, ◌<◌, ◌≤◌, [], IfOk, replicate};
ghost use Rattle.game_orders.specs.declared.limits.TheConstants.{MAX_CLIENTS};
ghost use Rattle.order_packets.specs.Feed.{unfed};
ghost use Rattle.frame_table.specs.declared.planned.Planned.TheVariants.{Free};
ghost use Rattle.frame_table.specs.Calls.{view_of};
ghost use Rattle.report_line.specs.Reports.{pushed};
ghost use Rattle.match_serve.specs.Passes.{IsOpening};
ghost use Rattle.match_serve.specs.Seats.{IsNewSeat, seat_share, invite_of};

use crate::link_seat::{LinkSeat, ReadSeat, SessionEnds};
use base::{List, NoMemory};
use frame_table::{FrameTable, Pass, Plan, Planned};
use match_net::{Invite, ReaderEnd, Reports, SenderEnd};
use order_packets::UpFeeder;
use std::alloc::Global;

/// The table of so many clients, each column free, and its first pass.
pub(crate) fn free_table(alloc: Global, clients: u8) -> Result<(FrameTable, Pass), NoMemory>
    requires least { 1 ≤ clients }
    requires most { clients ≤ MAX_CLIENTS }
    ensures opening { IfOk result (λ made. IsOpening clients made.0 0 made.1) }
    ensures share { IfOk result (λ made. (view_of made.1).share ≡ 2 ^ 62) }
{
    let plan = free_plan(alloc, clients)?;
    let (table, pass) = FrameTable::create(alloc, clients, plan)?;
    Ok((table, pass))
}

/// The plan of so many free columns.
fn free_plan(alloc: Global, clients: u8) -> Result<Plan, NoMemory>
    ensures { IfOk result (λ plan. plan ≡ replicate clients Free) }
{
    let mut each = List::new(alloc);
    for _client in 0..clients {
        each.push(Planned::Free)?;
    }
    Ok(Plan::new(each))
}

/// What a client is told.
fn client_invite(invite: &Invite, client: u8) -> Invite
    ensures { result ≡ invite_of invite.now client }
{
    Invite {
        client,
        clients: invite.clients,
        lag: invite.lag,
        seed: invite.seed,
        rules: invite.rules,
    }
}

/// What the link of a client is served with. Its passes are parts of the given one, which keeps at
/// least half of its share.
pub(crate) fn new_seat(
    table: &FrameTable,
    pass: &mut Pass,
    invite: &Invite,
    client: u8,
    feeder: UpFeeder,
    reports: Reports,
) -> LinkSeat
    requires opening { IsOpening invite.now.clients table.now client pass.old }
    requires client { client < invite.now.clients }
    requires share { 4 ≤ (view_of pass.old).share }
    requires unfed { feeder ≡ unfed }
    requires unpushed { pushed reports ≡ [] }
    ensures opening { IsOpening invite.now.clients table.now (client + 1) pass.new }
    ensures seat { IsNewSeat invite.now.clients table.now result }
    ensures told { result.invite ≡ invite_of invite.now client }
    ensures reports { result.reading.reports ≡ reports }
    ensures shares { (view_of pass.new).share + seat_share result ≡ (view_of pass.old).share }
    ensures half { (view_of pass.old).share ≤ 2 * (view_of pass.new).share }
{
    let mut sending = table.split(pass);
    let reading = table.split(&mut sending);
    LinkSeat {
        invite: client_invite(invite, client),
        reading: ReadSeat {
            pass: reading,
            feeder,
            reports,
            taken: 0,
        },
        sending,
        ends: SessionEnds {
            reader: ReaderEnd::NoMemory,
            sender: SenderEnd::Sent,
        },
    }
}
