ghost use Rattle.std.specs.Prelude.{◌≡◌, ◌<◌, [], length, IfOk, replicate};
ghost use Rattle.frame_table.specs.declared.planned.Planned.TheVariants.{Free};
ghost use Rattle.frame_table.specs.Calls.{plan_of, view_of, standing, IsPassOf};
ghost use Rattle.order_packets.specs.PacketBytes.{down_bytes};
ghost use Rattle.match_net.specs.Sending.{SendsTo, nothing_sent};
ghost use Rattle.match_net.specs.SenderSession.{SendsAs, SentBy, LeavesIf, SendsRefusal};
ghost use Rattle.match_net.specs.SenderSession.{welcome_of};

use crate::greeting::Greeting;
use crate::invite::Invite;
use crate::sender_end::SenderEnd;
use crate::sending::{put_packet, send_all};
use base::NoMemory;
use frame_table::{FrameTable, Pass, Seen};
use game_io::Sink;
use order_packets::Down;
use std::alloc::Global;
use std::sync::Wait;

/// Sends to an invited client what it is to get. After the greeting `Welcome` that is the welcome,
/// and then every entry of every column, each column in order and without a gap, as long as one
/// has no departure; after `Refuse` it is the refusal with that code, and after any other nothing.
///
/// `Sent` where all of that was written. `Lost` only where the link's count of faults rose in this
/// call; what was written is then a prefix of that. `NoMemory` may take the place of either. After
/// `Lost` and `NoMemory` the client has left, and no other column has changed; after `Sent` none
/// has. The client's column is free. It returns only once it has got the locks of the columns, and
/// after a Welcome only where each client leaves, the link fails or memory runs out.
pub fn sender_session<O: Sink, R: Wait>(
    rt: &R,
    alloc: Global,
    table: &FrameTable,
    pass: &mut Pass,
    invite: &Invite,
    greeting: Greeting,
    link: &mut O,
) -> SenderEnd
    requires pass { IsPassOf table.now pass.old }
    requires clients { invite.now.clients ≡ length (plan_of table.now) }
    requires client { invite.now.client < invite.now.clients }
    requires free { (standing pass.old invite.now.client).planned ≡ Free }
    ensures pass { IsPassOf table.now pass.new }
    ensures sends { SendsAs greeting invite.now (O.state link.old) (O.state link.new)
        (view_of pass.old) (view_of pass.new) result }
{
    let end = send_as_greeted(rt, alloc, table, pass, invite, greeting, link);
    leave_if_cut_off(rt, table, pass, invite.client, end);
    end
}

/// Lets client `c` leave, unless all was sent to it.
fn leave_if_cut_off<R: Wait>(rt: &R, table: &FrameTable, pass: &mut Pass, c: u8, end: SenderEnd)
    requires pass { IsPassOf table.now pass.old }
    requires client { c < length (plan_of table.now) }
    requires free { (standing pass.old c).planned ≡ Free }
    ensures pass { IsPassOf table.now pass.new }
    ensures leaves { LeavesIf c (view_of pass.old) (view_of pass.new) end }
{
    match end {
        SenderEnd::Sent => {}
        SenderEnd::Lost => {
            let _left = table.leave(rt, pass, c);
        }
        SenderEnd::NoMemory => {
            let _left = table.leave(rt, pass, c);
        }
    }
}

/// Sends what the greeting says.
fn send_as_greeted<O: Sink, R: Wait>(
    rt: &R,
    alloc: Global,
    table: &FrameTable,
    pass: &mut Pass,
    invite: &Invite,
    greeting: Greeting,
    link: &mut O,
) -> SenderEnd
    requires pass { IsPassOf table.now pass.old }
    requires clients { invite.now.clients ≡ length (plan_of table.now) }
    requires client { invite.now.client < invite.now.clients }
    ensures pass { IsPassOf table.now pass.new }
    ensures sends { SentBy greeting invite.now (O.state link.old) (O.state link.new)
        (view_of pass.old) (view_of pass.new) result }
{
    match greeting {
        Greeting::Welcome => send_match(rt, alloc, table, pass, invite, link),
        Greeting::Refuse { code } => send_refusal(alloc, link, code),
        Greeting::Fault(_) => SenderEnd::Sent,
        Greeting::Ended => SenderEnd::Sent,
        Greeting::Lost => SenderEnd::Sent,
    }
}

/// Sends the refusal with this code.
fn send_refusal<O: Sink>(alloc: Global, link: &mut O, code: u8) -> SenderEnd
    ensures { SendsRefusal code (O.state link.old) (O.state link.new) result }
{
    let mut bytes = Vec::new(alloc);
    match put_packet(link, &mut bytes, &Down::Refused { code }) {
        None => SenderEnd::Sent,
        Some(end) => end,
    }
}

/// Sends the welcome, and then the entries of all columns.
#[tactic(auto, using(crate::proofs::SenderLemmas::unwelcomed, crate::proofs::SenderLemmas::welcomed_sends))]
fn send_match<O: Sink, R: Wait>(
    rt: &R,
    alloc: Global,
    table: &FrameTable,
    pass: &mut Pass,
    invite: &Invite,
    link: &mut O,
) -> SenderEnd
    requires pass { IsPassOf table.now pass.old }
    requires clients { invite.now.clients ≡ length (plan_of table.now) }
    requires client { invite.now.client < invite.now.clients }
    ensures pass { IsPassOf table.now pass.new }
    ensures sends { SendsTo invite.now.clients (down_bytes (welcome_of invite.now))
        (O.state link.old) (O.state link.new) (view_of pass.old) (view_of pass.new) result }
{
    let mut bytes = Vec::new(alloc);
    let welcome = Down::Welcome {
        client: invite.client,
        clients: invite.clients,
        lag: invite.lag,
        seed: invite.seed,
    };
    match put_packet(link, &mut bytes, &welcome) {
        Some(end) => end,
        None => send_columns(rt, alloc, table, pass, link, &mut bytes, invite.clients),
    }
}

/// Sends the entries of all columns.
#[tactic(auto, using(crate::proofs::SenderLemmas::nothing_written))]
fn send_columns<O: Sink, R: Wait>(
    rt: &R,
    alloc: Global,
    table: &FrameTable,
    pass: &mut Pass,
    link: &mut O,
    bytes: &mut Vec<u8>,
    clients: u8,
) -> SenderEnd
    requires pass { IsPassOf table.now pass.old }
    requires clients { clients ≡ length (plan_of table.now) }
    requires least { 0 < clients }
    ensures pass { IsPassOf table.now pass.new }
    ensures sends { SendsTo clients [] (O.state link.old) (O.state link.new) (view_of pass.old)
        (view_of pass.new) result }
{
    match no_counts(alloc, clients) {
        Ok(counts) => send_all_counted(rt, table, pass, link, bytes, clients, counts),
        Err(_) => SenderEnd::NoMemory,
    }
}

/// Sends the entries of all columns, of which nothing was sent.
fn send_all_counted<O: Sink, R: Wait>(
    rt: &R,
    table: &FrameTable,
    pass: &mut Pass,
    link: &mut O,
    bytes: &mut Vec<u8>,
    clients: u8,
    counts: Vec<Seen>,
) -> SenderEnd
    requires pass { IsPassOf table.now pass.old }
    requires clients { clients ≡ length (plan_of table.now) }
    requires least { 0 < clients }
    requires none { counts.items ≡ replicate clients nothing_sent }
    ensures pass { IsPassOf table.now pass.new }
    ensures sends { SendsTo clients [] (O.state link.old) (O.state link.new) (view_of pass.old)
        (view_of pass.new) result }
{
    let mut counts = counts;
    send_all(rt, table, pass, link, bytes, clients, counts.as_mut_slice())
}

/// A count for each client, of which nothing was sent yet.
fn no_counts(alloc: Global, clients: u8) -> Result<Vec<Seen>, NoMemory>
    ensures { IfOk result (λ counts. counts.items ≡ replicate clients nothing_sent) }
{
    let mut counts = Vec::new(alloc);
    for _client in 0..clients {
        counts.push(Seen {
            plays: 0,
            left: false,
        })?;
    }
    Ok(counts)
}
