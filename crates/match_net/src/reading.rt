//! What a client's packets do to its column and to the queue of reports.
ghost use Rattle.std.specs.Prelude.{◌≡◌, ◌<◌, ◌∷◌, [], length, Some};
ghost use Rattle.frame_table.specs.Calls.{plan_of, view_of, standing, IsPassOf};
ghost use Rattle.report_line.specs.Reports.{pushed, StaysOf};
ghost use Rattle.match_net.specs.Ahead.{IsInStep, MayGoOn};
ghost use Rattle.match_net.specs.Handling.{end_by_put};
ghost use Rattle.match_net.specs.Reading.{MayPlay, PutsOrders, HandlesPacket, PushMeans};

use crate::invite::Invite;
use crate::read_cause::ReadCause;
use crate::reader_end::ReaderEnd;
use frame_core::Put;
use frame_table::{FrameTable, Pass};
use game_orders::{Entry, Orders};
use order_packets::Up;
use report_line::{Heard, Reports};
use std::sync::Wait;

/// Does what a packet of the client asks, and answers how the reading ends with it, if it does. The
/// client's column is not too far ahead.
pub(crate) fn handle_packet<R: Wait>(
    rt: &R,
    table: &FrameTable,
    pass: &mut Pass,
    invite: &Invite,
    packet: Up,
    reports: &mut Reports,
) -> Option<ReaderEnd>
    requires pass { IsPassOf table.now pass.old }
    requires client { invite.now.client < length (plan_of table.now) }
    requires may { MayPlay (standing pass.old invite.now.client) }
    requires goes { MayGoOn invite.now.lag invite.now.client (view_of pass.old) }
    requires step { IsInStep invite.now.lag invite.now.client (view_of pass.old) }
    ensures pass { IsPassOf table.now pass.new }
    ensures step { IsInStep invite.now.lag invite.now.client (view_of pass.new) }
    ensures handles { HandlesPacket invite.now.client (view_of pass.old) (view_of pass.new)
        (pushed reports.old) (pushed reports.new) packet result }
    ensures end { StaysOf invite.now.client reports.old reports.new }
{
    match packet {
        Up::Hello {
            version: _,
            rules: _,
        } => Some(ReaderEnd::Refused(ReadCause::SecondHello)),
        Up::Orders { frame, orders } => put_orders(rt, table, pass, invite, frame, orders),
        Up::Sync { frame, hash } => push_report(
            rt,
            reports,
            Heard {
                client: invite.client,
                frame,
                hash,
            },
        ),
        Up::Bye => Some(ReaderEnd::Ended),
    }
}

/// Pushes a report, and answers that the reading ends where memory runs out.
fn push_report<R: Wait>(rt: &R, reports: &mut Reports, heard: Heard) -> Option<ReaderEnd>
    ensures means { PushMeans (pushed reports.old) (pushed reports.new) (heard ∷ []) result }
    ensures end { StaysOf heard.client reports.old reports.new }
{
    match reports.push(rt, heard) {
        Ok(()) => None,
        Err(_) => Some(ReaderEnd::NoMemory),
    }
}

/// Puts the orders of the client at a frame, and answers how the reading ends by that, if it does.
fn put_orders<R: Wait>(
    rt: &R,
    table: &FrameTable,
    pass: &mut Pass,
    invite: &Invite,
    frame: u32,
    orders: Orders,
) -> Option<ReaderEnd>
    requires pass { IsPassOf table.now pass.old }
    requires client { invite.now.client < length (plan_of table.now) }
    requires may { MayPlay (standing pass.old invite.now.client) }
    requires goes { MayGoOn invite.now.lag invite.now.client (view_of pass.old) }
    requires step { IsInStep invite.now.lag invite.now.client (view_of pass.old) }
    ensures pass { IsPassOf table.now pass.new }
    ensures step { IsInStep invite.now.lag invite.now.client (view_of pass.new) }
    ensures puts { PutsOrders invite.now.client (view_of pass.old) (view_of pass.new) frame orders
        result }
{
    match table.put(rt, pass, invite.client, frame, Entry::Play(orders)) {
        Ok(answer) => end_by_put(answer, frame),
        Err(_) => Some(ReaderEnd::NoMemory),
    }
}

/// How the reading ends by the answer to a play at this frame, if it does.
fn end_by_put(answer: Put, frame: u32) -> Option<ReaderEnd>
    ensures { result ≡ end_by_put answer frame }
{
    match answer {
        Put::Fixed => None,
        Put::Repeat => None,
        Put::Conflict(kept) => Some(end_by_conflict(&kept, frame)),
        Put::Left(at) => Some(ReaderEnd::LeftAt(at)),
        Put::Ahead(_) => Some(ReaderEnd::Refused(ReadCause::Ahead)),
        Put::Full => Some(ReaderEnd::Refused(ReadCause::Full)),
    }
}

/// How the reading ends where this entry stands at a frame, and another play was to.
fn end_by_conflict(kept: &Entry, frame: u32) -> ReaderEnd
    ensures { Some result ≡ end_by_put (Put.Conflict kept.now) frame }
{
    match kept {
        Entry::Play(_) => ReaderEnd::Refused(ReadCause::Conflict),
        Entry::Leave => ReaderEnd::LeftAt(frame),
    }
}
