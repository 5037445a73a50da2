//! How the entries of all columns go to a link, each column in order.
ghost use Rattle.std.specs.Prelude.{◌≡◌, ◌<◌, ◌≤◌, ℕ, List, [], length, slice_index_or};
ghost use Rattle.game_io.specs.SinkState.{SinkState};
ghost use Rattle.order_packets.specs.PacketBytes.{down_bytes};
ghost use Rattle.frame_table.specs.Calls.{plan_of, view_of, standing, IsPassOf, HasSeen};
ghost use Rattle.frame_table.specs.declared.view.View.{View};
ghost use Rattle.match_net.specs.Sending.{PutsPacket, SendsEntry, SendsNext, next_count, Sending};
ghost use Rattle.match_net.specs.Sending.{AfterSend, EndsIfAll, SendsTo, nothing_sent};

use crate::sender_end::SenderEnd;
use frame_table::{FrameTable, Pass, Seen};
use game_io::Sink;
use idle_pause::Pause;
use order_packets::{Down, write_down};
use std::sync::Wait;

/// Writes a packet to a link, by way of `bytes`, and answers how the sending ends by that, if it
/// does.
pub(crate) fn put_packet<O: Sink>(
    link: &mut O,
    bytes: &mut Vec<u8>,
    packet: &Down,
) -> Option<SenderEnd>
    ensures { PutsPacket (O.state link.old) (O.state link.new) (down_bytes packet.now) result }
{
    bytes.clear();
    if write_down(bytes, packet).is_err() {
        return Some(SenderEnd::NoMemory);
    }
    match link.put(bytes) {
        Ok(()) => None,
        Err(_) => Some(SenderEnd::Lost),
    }
}

/// Takes the entry of client `c` at frame `n` from the table, and writes it to the link.
fn send_entry<O: Sink, R: Wait>(
    rt: &R,
    table: &FrameTable,
    pass: &mut Pass,
    link: &mut O,
    bytes: &mut Vec<u8>,
    c: u8,
    n: u32,
) -> Option<SenderEnd>
    requires pass { IsPassOf table.now pass.old }
    requires client { c < length (plan_of table.now) }
    requires seen { HasSeen (standing pass.old c).reach n }
    ensures pass { IsPassOf table.now pass.new }
    ensures sends { SendsEntry c n (O.state link.old) (O.state link.new) (view_of pass.old)
        (view_of pass.new) result }
{
    let entry = table.take(rt, pass, c, n);
    let packet = Down::Entry {
        client: c,
        frame: n,
        entry,
    };
    put_packet(link, bytes, &packet)
}

/// How much of a column is sent once its next entry is, if that was seen.
fn next_count(count: Seen, seen: Seen) -> Option<Seen>
    ensures { result ≡ next_count count seen }
{
    if count.left {
        None
    } else if count.plays < seen.plays {
        Some(Seen {
            plays: count.plays + 1,
            left: false,
        })
    } else if seen.left {
        Some(Seen {
            plays: count.plays,
            left: true,
        })
    } else {
        None
    }
}

/// Sends the next entry of client `c`, if there is one, and answers whether there was.
fn send_next<O: Sink, R: Wait>(
    rt: &R,
    table: &FrameTable,
    pass: &mut Pass,
    link: &mut O,
    bytes: &mut Vec<u8>,
    c: u8,
    count: &mut Seen,
) -> Result<bool, SenderEnd>
    requires pass { IsPassOf table.now pass.old }
    requires client { c < length (plan_of table.now) }
    ensures pass { IsPassOf table.now pass.new }
    ensures sends { SendsNext c (O.state link.old) (O.state link.new) (view_of pass.old)
        (view_of pass.new) count.old count.new result }
{
    let seen = table.seen(pass, c);
    let Some(next) = next_count(*count, seen) else {
        return Ok(false);
    };
    match send_entry(rt, table, pass, link, bytes, c, count.plays) {
        None => {
            *count = next;
            Ok(true)
        }
        Some(end) => Err(end),
    }
}

/// The end of the sending, where the departure of each column was sent.
fn end_if_all(counts: &[Seen]) -> Option<SenderEnd>
    ensures { EndsIfAll counts.now result }
{
    for count in counts {
        if !count.left {
            return None;
        }
    }
    Some(SenderEnd::Sent)
}

/// Sends the next entry of client `c`, if there is one, and answers how the sending ends by that,
/// if it does. Where there is none it pauses.
fn send_turn<O: Sink, R: Wait>(
    rt: &R,
    table: &FrameTable,
    pass: &mut Pass,
    link: &mut O,
    bytes: &mut Vec<u8>,
    c: u8,
    counts: &mut [Seen],
    pause: &mut Pause,
) -> Option<SenderEnd>
    requires pass { IsPassOf table.now pass.old }
    requires clients { length counts.old ≡ length (plan_of table.now) }
    requires client { c < length counts.old }
    ensures pass { IsPassOf table.now pass.new }
    ensures clients { length counts.new ≡ length counts.old }
    ensures sends { (old : SinkState) (before : View) →
        Sending (length counts.old) [] old (O.state link.old) before (view_of pass.old) counts.old →
        AfterSend (length counts.old) [] old (O.state link.new) before (view_of pass.new)
        counts.new result }
{
    match send_next(rt, table, pass, link, bytes, c, &mut counts[c as usize]) {
        Ok(true) => {
            pause.end();
            None
        }
        Ok(false) => {
            pause.rest(rt);
            end_if_all(counts)
        }
        Err(end) => Some(end),
    }
}

/// The client after this one, of so many: after the last comes the first.
fn client_after(c: u8, clients: u8) -> u8
    requires { c < clients }
    ensures { result < clients }
{
    if clients - c > 1 { c + 1 } else { 0 }
}

/// Sends the entries of all columns to a link, client by client in turn, until the departure of
/// each was sent, the link fails or memory runs out.
pub(crate) fn send_all<O: Sink, R: Wait>(
    rt: &R,
    table: &FrameTable,
    pass: &mut Pass,
    link: &mut O,
    bytes: &mut Vec<u8>,
    clients: u8,
    counts: &mut [Seen],
) -> SenderEnd
    requires pass { IsPassOf table.now pass.old }
    requires clients { clients ≡ length (plan_of table.now) }
    requires counts { length counts.old ≡ clients }
    requires least { 0 < clients }
    requires none { (c : ℕ) → slice_index_or counts.old c nothing_sent ≡ nothing_sent }
    ensures pass { IsPassOf table.now pass.new }
    ensures sends { SendsTo clients [] (O.state link.old) (O.state link.new) (view_of pass.old)
        (view_of pass.new) result }
{
    let mut c = 0;
    let mut pause = Pause::new();
    for _ in rt.forever() {
        if let Some(end) = send_turn(rt, table, pass, link, bytes, c, counts, &mut pause) {
            return end;
        }
        c = client_after(c, clients);
    }
    unreachable!()
}
