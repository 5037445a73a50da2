ghost use Rattle.std.specs.Prelude.{◌≡◌, ◌+◌, ◌<◌, ◌≤◌, [], length};
ghost use Rattle.frame_table.specs.Calls.{plan_of, view_of, standing, IsPassOf};
ghost use Rattle.report_line.specs.Reports.{pushed, StaysOf};
ghost use Rattle.match_net.specs.Ahead.{IsWithin};
ghost use Rattle.match_net.specs.Greeting.{IsGreeted};
ghost use Rattle.match_net.specs.Session.{cause_of};
ghost use Rattle.match_net.specs.Reading.{MayPlay};
ghost use Rattle.match_net.specs.Sessions.{ReadBy, ReadsAs, CountsAs, after_leaving};
ghost use Rattle.match_net.specs.declared.limits.TheConstants.{MAX_LINK_BYTES};

use crate::greeting::Greeting;
use crate::invite::Invite;
use crate::link_reading::read_packets;
use crate::read_cause::ReadCause;
use crate::reader_end::ReaderEnd;
use frame_core::Leaving;
use frame_table::{FrameTable, Pass};
use game_io::Source;
use order_packets::{OTHER_RULES, OTHER_VERSION, UpFeeder};
use report_line::Reports;
use std::sync::Wait;

/// Reads the link of an invited client after its greeting, to the end, and lets the client leave:
/// after each answer its column is left, and no other column has changed.
///
/// Orders go to the client's column, reports to the queue. The column is free, and the pass feeds
/// it and knows no play of it; the feeder and the link are as [`crate::greet`] left them. After any
/// other greeting than `Welcome` nothing is taken.
///
/// It puts no packet, also of bytes that it has taken, while the column has more than the invite's
/// `lag` frames above the ready ones and is not left. So the column never gets further ahead of the
/// match than one frame more than the lag.
///
/// The first applicable case decides:
///
/// 1. `Refused`: the greeting was refused; or, in a packet's place, stand a fault, a second
///    greeting, or orders that the column refuses with `Conflict`, `Ahead` or `Full`; or
///    [`crate::MAX_LINK_BYTES`] bytes hold no earlier end.
/// 2. `LeftAt`: the client had left before, which this call did not do, and orders for that frame
///    or a later one came, or the farewell, or the end of the bytes.
/// 3. `Ended`: the farewell came, or the bytes end; an observable link then has none left.
///
/// `Lost` only where the link's count of faults rose in this call, or after the greeting `Lost`.
/// `NoMemory` may take the place of any of them. It returns only if it gets the column's lock.
pub fn reader_session<I: Source, R: Wait>(
    rt: &R,
    table: &FrameTable,
    pass: &mut Pass,
    invite: &Invite,
    greeting: Greeting,
    feeder: &mut UpFeeder,
    link: &mut I,
    reports: &mut Reports,
) -> ReaderEnd
    requires pass { IsPassOf table.now pass.old }
    requires client { invite.now.client < length (plan_of table.now) }
    requires may { MayPlay (standing pass.old invite.now.client) }
    requires unplayed { (standing pass.old invite.now.client).known.plays ≡ [] }
    requires greeted { IsGreeted greeting feeder.old (I.state link.old).left }
    ensures pass { IsPassOf table.now pass.new }
    ensures near { IsWithin (invite.now.lag + 1) invite.now.client (view_of pass.new) }
    ensures reads { ReadsAs greeting invite.now.client invite.now.rules feeder.old.rest
        (I.state link.old) (I.state link.new) (view_of pass.old) (view_of pass.new)
        (pushed reports.old) (pushed reports.new) result }
    ensures end { StaysOf invite.now.client reports.old reports.new }
{
    let mut taken = 0;
    reader_session_counted(
        rt, table, pass, invite, greeting, feeder, link, reports, &mut taken,
    )
}

/// Reads a link as [`reader_session`] does, and adds the number of bytes that it takes to a count,
/// which is at most [`crate::MAX_LINK_BYTES`] before. Those that are lost where memory runs out are
/// counted too; the feeder's are not, which [`crate::greet_counted`] has counted.
pub fn reader_session_counted<I: Source, R: Wait>(
    rt: &R,
    table: &FrameTable,
    pass: &mut Pass,
    invite: &Invite,
    greeting: Greeting,
    feeder: &mut UpFeeder,
    link: &mut I,
    reports: &mut Reports,
    taken: &mut u64,
) -> ReaderEnd
    requires pass { IsPassOf table.now pass.old }
    requires client { invite.now.client < length (plan_of table.now) }
    requires may { MayPlay (standing pass.old invite.now.client) }
    requires unplayed { (standing pass.old invite.now.client).known.plays ≡ [] }
    requires greeted { IsGreeted greeting feeder.old (I.state link.old).left }
    requires few { taken.old ≤ MAX_LINK_BYTES }
    ensures pass { IsPassOf table.now pass.new }
    ensures near { IsWithin (invite.now.lag + 1) invite.now.client (view_of pass.new) }
    ensures reads { CountsAs greeting invite.now.client invite.now.rules feeder.old.rest
        (I.state link.old) (I.state link.new) taken.old taken.new (view_of pass.old)
        (view_of pass.new) (pushed reports.old) (pushed reports.new) result }
    ensures end { StaysOf invite.now.client reports.old reports.new }
{
    let end = read_as_greeted(
        rt, table, pass, invite, greeting, feeder, link, reports, taken,
    );
    let leaving = table.leave(rt, pass, invite.client);
    after_leaving(end, leaving)
}

/// Reads the link as its greeting says, and answers how that ended.
fn read_as_greeted<I: Source, R: Wait>(
    rt: &R,
    table: &FrameTable,
    pass: &mut Pass,
    invite: &Invite,
    greeting: Greeting,
    feeder: &mut UpFeeder,
    link: &mut I,
    reports: &mut Reports,
    taken: &mut u64,
) -> ReaderEnd
    requires pass { IsPassOf table.now pass.old }
    requires client { invite.now.client < length (plan_of table.now) }
    requires may { MayPlay (standing pass.old invite.now.client) }
    requires unplayed { (standing pass.old invite.now.client).known.plays ≡ [] }
    requires greeted { IsGreeted greeting feeder.old (I.state link.old).left }
    requires few { taken.old ≤ MAX_LINK_BYTES }
    ensures pass { IsPassOf table.now pass.new }
    ensures may { MayPlay (standing pass.new invite.now.client) }
    ensures near { IsWithin (invite.now.lag + 1) invite.now.client (view_of pass.new) }
    ensures reads { ReadBy greeting invite.now.client invite.now.rules feeder.old.rest
        (I.state link.old) (I.state link.new) taken.old taken.new (view_of pass.old)
        (view_of pass.new) (pushed reports.old) (pushed reports.new) result }
    ensures end { StaysOf invite.now.client reports.old reports.new }
{
    match greeting {
        Greeting::Welcome => read_packets(rt, table, pass, invite, feeder, link, reports, taken),
        Greeting::Refuse { code } => ReaderEnd::Refused(cause_of(code)),
        Greeting::Fault(fault) => ReaderEnd::Refused(ReadCause::Feed(fault)),
        Greeting::Ended => ReaderEnd::Ended,
        Greeting::Lost => ReaderEnd::Lost,
    }
}

/// Why a client is not in the match, by its code.
fn cause_of(code: u8) -> ReadCause
    ensures { result ≡ cause_of code }
{
    if code == OTHER_VERSION {
        ReadCause::Version
    } else if code == OTHER_RULES {
        ReadCause::OtherRules
    } else {
        ReadCause::NoHello
    }
}

/// How the session ends, by how the reading did and by who let the client leave.
fn after_leaving(end: ReaderEnd, leaving: Leaving) -> ReaderEnd
    ensures { result ≡ after_leaving end leaving }
{
    match (end, leaving) {
        (ReaderEnd::Ended, Leaving::Already(at)) => ReaderEnd::LeftAt(at),
        _ => end,
    }
}
