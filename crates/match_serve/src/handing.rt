//! How all links of a match are handed back.
ghost use Rattle.std.specs.Prelude.{◌≡◌, ◌+◌, ◌<◌, ◌≤◌, ℕ, List, Option, [], true, false, length};
ghost use Rattle.std.specs.Prelude.{slice_get, slice_index_or};
ghost use Rattle.frame_table.specs.Calls.{view_of, standing};
ghost use Rattle.report_line.specs.Reports.{heard, joined, IsSameReceiver};
ghost use Rattle.match_serve.specs.declared.link_end.LinkEnd.TheVariants as end;
ghost use Rattle.match_serve.specs.Passes.{IsServePass, columns_of};
ghost use Rattle.match_serve.specs.Seats.{AreServedLinks, shares_of, made_in};
ghost use Rattle.match_serve.specs.Closed.{LinkClosed};

use crate::closing::{close_link, link_end};
use crate::link_end::LinkEnd;
use crate::served_link::ServedLink;
use frame_table::{FrameTable, Pass};
use game_io::Net;
use match_net::{Invite, ReportReceiver};

/// Hands all links back to the net, joins what they were served with, and notes how each ended and
/// how many bytes were taken from it.
pub(crate) fn close_links<N: Net>(
    net: &mut N,
    table: &FrameTable,
    pass: &mut Pass,
    receiver: &mut ReportReceiver,
    invite: &Invite,
    pieces: Vec<ServedLink<N::In, N::Out>>,
    kicked: &[bool],
    ends: &mut [LinkEnd],
    taken: &mut [u64],
)
    requires pass { IsServePass invite.now.clients table.now pass.old }
    requires left { (c : ℕ) → c < invite.now.clients → (standing pass.old c).known.left ≡ true }
    requires done { (coming : Option (List (List ℕ))) × AreServedLinks invite.now.clients table.now
        invite.now receiver.old coming 0 pieces.items }
    requires count { length pieces.items ≡ invite.now.clients }
    requires given { length (N.state net.old).given ≡ invite.now.clients }
    requires unjoined { joined receiver.old ≡ [] }
    requires kicked { length kicked.now ≡ invite.now.clients }
    requires ends { length ends.old ≡ invite.now.clients }
    requires taken { length taken.old ≡ invite.now.clients }
    ensures pass { IsServePass invite.now.clients table.now pass.new }
    ensures share { (view_of pass.new).share
        ≡ (view_of pass.old).share + shares_of pieces.items }
    ensures known { (c : ℕ) → c < invite.now.clients →
        (standing pass.new c).known ≡ (standing pass.old c).known }
    ensures made { (c : ℕ) → c < invite.now.clients →
        (standing pass.new c).made ≡ (standing pass.old c).made + made_in pieces.items c }
    ensures links { (coming : Option (List (List ℕ))) → AreServedLinks invite.now.clients table.now
        invite.now receiver.old coming 0 pieces.items → (c : ℕ) → c < invite.now.clients →
        LinkClosed c invite.now (columns_of pass.old) (slice_index_or (joined receiver.new) c [])
        coming (slice_index_or kicked.now c false) (made_in pieces.items c)
        (slice_get (N.state net.new).given c) (slice_index_or ends.new c end.Memory)
        (slice_index_or taken.new c 0) }
    ensures given { length (N.state net.new).given ≡ invite.now.clients }
    ensures coming { (N.state net.new).coming ≡ (N.state net.old).coming }
    ensures joined { length (joined receiver.new) ≡ invite.now.clients }
    ensures heard { heard receiver.new ≡ heard receiver.old }
    ensures same { IsSameReceiver receiver.old receiver.new }
    ensures ends { length ends.new ≡ invite.now.clients }
    ensures taken { length taken.new ≡ invite.now.clients }
{
    let mut left = pieces;
    for c in 0..invite.clients {
        let piece = left.remove(0);
        let at = c as usize;
        ends[at] = link_end(piece.seat.ends, kicked[at]);
        taken[at] = piece.seat.reading.taken;
        close_link(net, table, pass, receiver, c as u32, invite.clients, piece);
    }
}
