//! How a match over links ends: passes are joined, and links go back to the net.
ghost use Rattle.std.specs.Prelude.{◌≡◌, ◌+◌, ◌<◌, ◌≤◌, ◌++◌, ◌∷◌, [], ℕ, length};
ghost use Rattle.game_io.specs.NetState.{TakesBack};
ghost use Rattle.frame_core.specs.Grows.{GrowsTo};
ghost use Rattle.frame_table.specs.Calls.{view_of, standing};
ghost use Rattle.report_line.specs.Reports.{pushed, queue_of, queue_heard, number_of};
ghost use Rattle.report_line.specs.Reports.{heard, joined, IsSameReceiver};
ghost use Rattle.match_serve.specs.Passes.{IsServePass};
ghost use Rattle.match_serve.specs.Seats.{seat_share};
ghost use Rattle.match_serve.specs.Closed.{link_end_of, reader_end_of, left_end_of, Closes};

use crate::link_end::LinkEnd;
use crate::link_seat::{LinkSeat, ReadSeat, SessionEnds};
use crate::served_link::ServedLink;
use frame_table::{FrameTable, Pass};
use game_io::Net;
use match_net::{ReaderEnd, ReportReceiver, SenderEnd};

/// Joins the passes and the end of the queue of one link, and hands its halves back.
pub(crate) fn close_link<N: Net>(
    net: &mut N,
    table: &FrameTable,
    pass: &mut Pass,
    receiver: &mut ReportReceiver,
    number: u32,
    clients: u8,
    piece: ServedLink<N::In, N::Out>,
)
    requires pass { IsServePass clients table.now pass.old }
    requires reads { IsServePass clients table.now piece.seat.reading.pass }
    requires sends { IsServePass clients table.now piece.seat.sending }
    requires number { number < length (N.state net.old).given }
    requires queue { queue_of piece.seat.reading.reports ≡ queue_heard receiver.old }
    requires next { number_of piece.seat.reading.reports ≡ length (joined receiver.old) }
    ensures closes { Closes clients table.now piece.seat pass.old pass.new }
    ensures net { TakesBack number piece.input piece.output (N.state net.old) (N.state net.new) }
    ensures joined { joined receiver.new
        ≡ joined receiver.old ++ pushed piece.seat.reading.reports ∷ [] }
    ensures heard { heard receiver.new ≡ heard receiver.old }
    ensures same { IsSameReceiver receiver.old receiver.new }
{
    let ServedLink {
        input,
        output,
        seat,
    } = piece;
    join_seat(table, pass, receiver, clients, seat);
    net.take_back(number, input, output);
}

/// Joins the passes and the end of the queue of one link.
fn join_seat(
    table: &FrameTable,
    pass: &mut Pass,
    receiver: &mut ReportReceiver,
    clients: u8,
    seat: LinkSeat,
)
    requires pass { IsServePass clients table.now pass.old }
    requires reads { IsServePass clients table.now seat.reading.pass }
    requires sends { IsServePass clients table.now seat.sending }
    requires queue { queue_of seat.reading.reports ≡ queue_heard receiver.old }
    requires next { number_of seat.reading.reports ≡ length (joined receiver.old) }
    ensures closes { Closes clients table.now seat pass.old pass.new }
    ensures joined { joined receiver.new ≡ joined receiver.old ++ pushed seat.reading.reports ∷ [] }
    ensures heard { heard receiver.new ≡ heard receiver.old }
    ensures same { IsSameReceiver receiver.old receiver.new }
{
    let LinkSeat {
        invite: _,
        reading,
        sending,
        ends: _,
    } = seat;
    let ReadSeat {
        pass: reads,
        feeder: _,
        reports,
        taken: _,
    } = reading;
    table.join(pass, reads);
    table.join(pass, sending);
    receiver.join(reports);
}

/// How a link ended, by how its sessions did and by whether the console kicked its client.
pub(crate) fn link_end(ends: SessionEnds, kicked: bool) -> LinkEnd
    ensures { result ≡ link_end_of ends.reader ends.sender kicked }
{
    match ends.sender {
        SenderEnd::NoMemory => LinkEnd::Memory,
        SenderEnd::Sent => reader_link_end(ends.reader, kicked),
        SenderEnd::Lost => reader_link_end(ends.reader, kicked),
    }
}

/// How a link ended whose sender has not run out of memory.
fn reader_link_end(end: ReaderEnd, kicked: bool) -> LinkEnd
    ensures { result ≡ reader_end_of end kicked }
{
    match end {
        ReaderEnd::Ended => LinkEnd::Ended,
        ReaderEnd::Refused(cause) => LinkEnd::Refused(cause),
        ReaderEnd::LeftAt(at) => left_at(at, kicked),
        ReaderEnd::Lost => LinkEnd::Lost,
        ReaderEnd::NoMemory => LinkEnd::Memory,
    }
}

/// How a link ended whose client another let leave at this frame: the console, or the link's own
/// sender, which failed.
fn left_at(at: u32, kicked: bool) -> LinkEnd
    ensures { result ≡ left_end_of at kicked }
{
    if kicked {
        LinkEnd::Kicked(at)
    } else {
        LinkEnd::Lost
    }
}
