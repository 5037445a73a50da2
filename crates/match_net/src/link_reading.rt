//! How a link is read, packet by packet.
ghost use Rattle.std.specs.Prelude.{◌≡◌, ◌<◌, ◌≤◌, ◌+◌, ◌-◌, ◌*◌, ◌++◌, [], ℕ, List, None, length};
ghost use Rattle.frame_table.specs.Calls.{plan_of, view_of, standing, IsPassOf};
ghost use Rattle.frame_table.specs.declared.view.View.{View};
ghost use Rattle.game_io.specs.SourceState.{SourceState};
ghost use Rattle.report_line.specs.declared.heard.Heard.{Heard};
ghost use Rattle.match_net.specs.declared.limits.TheConstants.{MAX_LINK_BYTES};
ghost use Rattle.match_net.specs.Greeting.{hello_bytes};
ghost use Rattle.report_line.specs.Reports.{pushed, StaysOf};
ghost use Rattle.match_net.specs.Ahead.{IsInStep, IsWithin, MayGoOn};
ghost use Rattle.match_net.specs.Reading.{MayPlay, ReadsTo};
ghost use Rattle.match_net.specs.ReadSoFar.{ReadSoFar, AfterTurn, TakesMore};

use crate::invite::Invite;
use crate::limits::MAX_LINK_BYTES;
use crate::piece::Piece;
use crate::piece_taking::take_counted;
use crate::read_cause::ReadCause;
use crate::reader_end::ReaderEnd;
use crate::reading::handle_packet;
use crate::waiting::wait_to_go_on;
use frame_table::{FrameTable, Pass};
use game_io::Source;
use order_packets::UpFeeder;
use report_line::Reports;
use std::sync::Wait;

/// Takes a piece from a link, counts its bytes and feeds it, or answers how the reading ends with
/// that.
fn take_more<I: Source>(feeder: &mut UpFeeder, link: &mut I, taken: &mut u64) -> Option<ReaderEnd>
    requires fault { feeder.old.fault ≡ None }
    requires few { feeder.old.at + length feeder.old.rest ≤ MAX_LINK_BYTES }
    requires counts { taken.old ≤ 2 * MAX_LINK_BYTES }
    ensures { TakesMore (I.state link.old) (I.state link.new) taken.old taken.new feeder.old
        feeder.new result }
{
    let room = MAX_LINK_BYTES - (feeder.at() as usize + feeder.held());
    if room == 0 {
        return Some(ReaderEnd::Refused(ReadCause::SessionTooLong));
    }
    match take_counted(feeder, link, room, taken) {
        Ok(Piece::Some) => None,
        Ok(Piece::End) => Some(ReaderEnd::Ended),
        Ok(Piece::Lost) => Some(ReaderEnd::Lost),
        Err(_) => Some(ReaderEnd::NoMemory),
    }
}

/// Does what the next packet of the client asks, or takes more bytes where it is not whole, and
/// answers how the reading ends with that, if it does.
fn handle_next<I: Source, R: Wait>(
    rt: &R,
    table: &FrameTable,
    pass: &mut Pass,
    invite: &Invite,
    feeder: &mut UpFeeder,
    link: &mut I,
    reports: &mut Reports,
    taken: &mut u64,
) -> Option<ReaderEnd>
    requires pass { IsPassOf table.now pass.old }
    requires client { invite.now.client < length (plan_of table.now) }
    requires may { MayPlay (standing pass.old invite.now.client) }
    requires goes { MayGoOn invite.now.lag invite.now.client (view_of pass.old) }
    requires step { IsInStep invite.now.lag invite.now.client (view_of pass.old) }
    requires fault { feeder.old.fault ≡ None }
    requires few { feeder.old.at + length feeder.old.rest ≤ MAX_LINK_BYTES }
    requires counts { taken.old ≤ 2 * MAX_LINK_BYTES }
    ensures pass { IsPassOf table.now pass.new }
    ensures step { IsInStep invite.now.lag invite.now.client (view_of pass.new) }
    ensures turns { (here : ℕ) (given : List ℕ) (first : SourceState) (from : ℕ) (before : View)
        (start : List Heard) →
        ReadSoFar invite.now.client here given first (I.state link.old) from taken.old before
        (view_of pass.old) start (pushed reports.old) feeder.old →
        AfterTurn invite.now.client here given first (I.state link.new) from taken.new before
        (view_of pass.new) start (pushed reports.new) feeder.new result }
    ensures end { StaysOf invite.now.client reports.old reports.new }
{
    match feeder.next() {
        Ok(Some(packet)) => handle_packet(rt, table, pass, invite, packet, reports),
        Ok(None) => take_more(feeder, link, taken),
        Err(fault) => Some(ReaderEnd::Refused(ReadCause::Feed(fault))),
    }
}

/// Waits while the client's column is too far ahead. Then it does what the next packet asks, or
/// takes more bytes, and answers how the reading ends with that, if it does.
fn read_once<I: Source, R: Wait>(
    rt: &R,
    table: &FrameTable,
    pass: &mut Pass,
    invite: &Invite,
    feeder: &mut UpFeeder,
    link: &mut I,
    reports: &mut Reports,
    taken: &mut u64,
) -> Option<ReaderEnd>
    requires pass { IsPassOf table.now pass.old }
    requires client { invite.now.client < length (plan_of table.now) }
    requires may { MayPlay (standing pass.old invite.now.client) }
    requires step { IsInStep invite.now.lag invite.now.client (view_of pass.old) }
    requires fault { feeder.old.fault ≡ None }
    requires few { feeder.old.at + length feeder.old.rest ≤ MAX_LINK_BYTES }
    requires counts { taken.old ≤ 2 * MAX_LINK_BYTES }
    ensures pass { IsPassOf table.now pass.new }
    ensures step { IsInStep invite.now.lag invite.now.client (view_of pass.new) }
    ensures turns { (here : ℕ) (given : List ℕ) (first : SourceState) (from : ℕ) (before : View)
        (start : List Heard) →
        ReadSoFar invite.now.client here given first (I.state link.old) from taken.old before
        (view_of pass.old) start (pushed reports.old) feeder.old →
        AfterTurn invite.now.client here given first (I.state link.new) from taken.new before
        (view_of pass.new) start (pushed reports.new) feeder.new result }
    ensures end { StaysOf invite.now.client reports.old reports.new }
{
    wait_to_go_on(rt, table, pass, invite.client, invite.lag);
    handle_next(rt, table, pass, invite, feeder, link, reports, taken)
}

/// Reads the link of the client that is invited to its end, after its greeting. Before each packet
/// it waits while the client's column has more than the lag's frames above the ready ones and is
/// not left.
pub(crate) fn read_packets<I: Source, R: Wait>(
    rt: &R,
    table: &FrameTable,
    pass: &mut Pass,
    invite: &Invite,
    feeder: &mut UpFeeder,
    link: &mut I,
    reports: &mut Reports,
    taken: &mut u64,
) -> ReaderEnd
    requires pass { IsPassOf table.now pass.old }
    requires client { invite.now.client < length (plan_of table.now) }
    requires may { MayPlay (standing pass.old invite.now.client) }
    requires unplayed { (standing pass.old invite.now.client).known.plays ≡ [] }
    requires at { feeder.old.at ≡ 13 }
    requires fault { feeder.old.fault ≡ None }
    requires few { length feeder.old.rest ≤ MAX_LINK_BYTES - 13 }
    requires counts { taken.old ≤ MAX_LINK_BYTES }
    ensures pass { IsPassOf table.now pass.new }
    ensures may { MayPlay (standing pass.new invite.now.client) }
    ensures near { IsWithin (invite.now.lag + 1) invite.now.client (view_of pass.new) }
    ensures reads { ReadsTo invite.now.client invite.now.rules
        (hello_bytes invite.now.rules ++ feeder.old.rest) (I.state link.old) (I.state link.new)
        taken.old taken.new (view_of pass.old) (view_of pass.new) (pushed reports.old)
        (pushed reports.new) result }
    ensures end { StaysOf invite.now.client reports.old reports.new }
{
    let _rules = invite.rules;
    for _ in rt.forever() {
        if let Some(end) = read_once(rt, table, pass, invite, feeder, link, reports, taken) {
            return end;
        }
    }
    unreachable!()
}
