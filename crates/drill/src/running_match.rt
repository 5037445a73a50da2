//! A match that runs: its packets, its server and its peers, and what each event does to them.
ghost use Rattle.std.specs.Prelude.{◌≡◌, ◌<◌, ◌≤◌, true, slice_get, length};
ghost use Rattle.drill_words.specs.Event.{event_fits};
ghost use Rattle.drill_words.specs.EventView.{event_of};
ghost use Rattle.drill.specs.RunningMatch.{packet_frame, answer_outcome, receipt_outcome};
ghost use Rattle.drill.specs.RunningMatch.{match_from, IsWhole, RunsEvent};

use crate::drilled::Drilled;
use crate::entering::entering_of;
use crate::outcome::Outcome;
use crate::packet_view::PacketView;
use crate::peers::Peers;
use crate::sent::Sent;
use crate::sent_view::SentView;
use base::NoMemory;
use drill_words::{Event, EventView, SealOrders};
use frame_core::Sim;
use game_orders::MAX_CLIENTS;
use order_packets::Up;
use peer_core::{Peer, Receipt};
use server_core::{Server, UpAnswer};
use std::marker::Model;

/// The server and the peers of a match, and the packets that were sent up, whose orders the list of
/// the events lends.
#[derive(Drop)]
pub(crate) struct RunningMatch<'a, W: Sim> {
    /// The number of clients.
    pub(crate) clients: u8,
    /// How far a peer may seal ahead.
    pub(crate) lag: u8,
    /// The packets that were sent up, in order.
    pub(crate) sent: Vec<SentView<'a>>,
    /// The server.
    pub(crate) server: Server<W>,
    /// The peers, by rising number.
    pub(crate) peers: Vec<Peer<W>>,
}

impl<'a, W: Sim> Model for RunningMatch<'a, W> {
    ghost use Rattle.drill.specs.RunningMatch.{RunState};

    ghost Value = { RunState W };

    ghost view = { λ run. record {
      clients = run.clients;
      lag = run.lag;
      sent = run.sent.items;
      server = run.server;
      peers = run.peers.items;
    } };
}

impl<'a, W: Sim> RunningMatch<'a, W> {
    /// Runs an event. `Err` where it is out of memory; the match must not be used then.
    pub(crate) fn run_event(&mut self, event: EventView<'a>) -> Result<Outcome, NoMemory>
        requires whole { IsWhole self.old }
        requires fits { event_fits self.old.clients (event_of event) ≡ true }
        ensures clients { self.new.clients ≡ self.old.clients }
        ensures lag { self.new.lag ≡ self.old.lag }
        ensures runs { RunsEvent (match_from W.after W.hash_of W.summary_of self.old)
            (event_of event.entry) self.old self.new result }
    {
        match event {
            EventView::Seal { peer, orders } => self.seal(peer, orders),
            EventView::Up { packet } => self.up(packet),
            EventView::Down {
                peer,
                client,
                frame,
            } => self.down(peer, client, frame),
            EventView::Tick { peer } => self.tick(peer),
            EventView::TickServer => self.tick_server(),
            EventView::DropClient { client } => self.drop_client(client),
            EventView::Report { peer } => self.report(peer),
            EventView::Forge {
                client,
                frame,
                hash,
            } => self.forge(client, frame, hash),
            EventView::Bye { peer } => self.bye(peer),
        }
    }

    /// Peer `p` seals its next frame with these orders, and its packet is sent up.
    fn seal(&mut self, p: u8, orders: SealOrders<'a>) -> Result<Outcome, NoMemory>
        requires whole { IsWhole self.old }
        requires own { p < self.old.clients }
        ensures clients { self.new.clients ≡ self.old.clients }
        ensures lag { self.new.lag ≡ self.old.lag }
        ensures runs { RunsEvent (match_from W.after W.hash_of W.summary_of self.old)
            (Event.Seal p orders.entry) self.old self.new result }
    {
        let peer = &mut self.peers[p as usize];
        match peer.seal() {
            Ok(frame) => {
                let packet = PacketView::Orders { frame, orders };
                self.sent.push(SentView::of(p, packet))?;
                Ok(Outcome::Sealed(frame))
            }
            Err(fault) => Ok(Outcome::NotSealed(fault)),
        }
    }

    /// The server gets the packet of this number.
    fn up(&mut self, number: u32) -> Result<Outcome, NoMemory>
        requires whole { IsWhole self.old }
        ensures clients { self.new.clients ≡ self.old.clients }
        ensures lag { self.new.lag ≡ self.old.lag }
        ensures runs { RunsEvent (match_from W.after W.hash_of W.summary_of self.old)
            (Event.Up number) self.old self.new result }
    {
        let Some(sent) = sent_at(&self.sent, number) else {
            return Ok(Outcome::NoPacket);
        };
        let answer = self.server.up(sent.client, &sent.packet)?;
        Ok(answer_outcome(sent.client, &sent.packet, &answer))
    }

    /// Peer `p` gets the agreed entry of client `c` at frame `n`.
    fn down(&mut self, p: u8, c: u8, n: u32) -> Result<Outcome, NoMemory>
        requires whole { IsWhole self.old }
        requires own { p < self.old.clients }
        requires other { c < self.old.clients }
        ensures clients { self.new.clients ≡ self.old.clients }
        ensures lag { self.new.lag ≡ self.old.lag }
        ensures runs { RunsEvent (match_from W.after W.hash_of W.summary_of self.old)
            (Event.Down p c n) self.old self.new result }
    {
        let columns = self.server.columns();
        let Some(entry) = columns.entry(c, n) else {
            return Ok(Outcome::NoEntry);
        };
        let peer = &mut self.peers[p as usize];
        let receipt = peer.receive(c, n, entry)?;
        Ok(receipt_outcome(c, n, receipt))
    }

    /// Peer `p` ticks if it can.
    fn tick(&mut self, p: u8) -> Result<Outcome, NoMemory>
        requires whole { IsWhole self.old }
        requires own { p < self.old.clients }
        ensures clients { self.new.clients ≡ self.old.clients }
        ensures lag { self.new.lag ≡ self.old.lag }
        ensures runs { RunsEvent (match_from W.after W.hash_of W.summary_of self.old)
            (Event.Tick p) self.old self.new result }
    {
        let peer = &mut self.peers[p as usize];
        let answer = peer.tick();
        Ok(Outcome::Ticking(answer))
    }

    /// The server ticks if it can.
    fn tick_server(&mut self) -> Result<Outcome, NoMemory>
        requires whole { IsWhole self.old }
        ensures clients { self.new.clients ≡ self.old.clients }
        ensures lag { self.new.lag ≡ self.old.lag }
        ensures runs { RunsEvent (match_from W.after W.hash_of W.summary_of self.old)
            Event.TickServer self.old self.new result }
    {
        let answer = self.server.tick()?;
        Ok(Outcome::Ticking(answer))
    }

    /// The server lets client `c` leave.
    fn drop_client(&mut self, c: u8) -> Result<Outcome, NoMemory>
        requires whole { IsWhole self.old }
        requires other { c < self.old.clients }
        ensures clients { self.new.clients ≡ self.old.clients }
        ensures lag { self.new.lag ≡ self.old.lag }
        ensures runs { RunsEvent (match_from W.after W.hash_of W.summary_of self.old)
            (Event.DropClient c) self.old self.new result }
    {
        let leaving = self.server.drop_client(c);
        Ok(Outcome::Leaves { client: c, leaving })
    }

    /// A report of the last ticked frame of peer `p` is sent up.
    fn report(&mut self, p: u8) -> Result<Outcome, NoMemory>
        requires whole { IsWhole self.old }
        requires own { p < self.old.clients }
        ensures clients { self.new.clients ≡ self.old.clients }
        ensures lag { self.new.lag ≡ self.old.lag }
        ensures runs { RunsEvent (match_from W.after W.hash_of W.summary_of self.old)
            (Event.Report p) self.old self.new result }
    {
        let Some(report) = self.peers[p as usize].report() else {
            return Ok(Outcome::NoFrame);
        };
        let packet = PacketView::Sync {
            frame: report.frame,
            hash: report.hash,
        };
        self.sent.push(SentView::of(p, packet))?;
        Ok(Outcome::ReportSent(report.frame))
    }

    /// A report in the name of client `c` is sent up.
    fn forge(&mut self, c: u8, n: u32, hash: u64) -> Result<Outcome, NoMemory>
        requires whole { IsWhole self.old }
        requires other { c < self.old.clients }
        ensures clients { self.new.clients ≡ self.old.clients }
        ensures lag { self.new.lag ≡ self.old.lag }
        ensures runs { RunsEvent (match_from W.after W.hash_of W.summary_of self.old)
            (Event.Forge c n hash) self.old self.new result }
    {
        let packet = PacketView::Sync { frame: n, hash };
        self.sent.push(SentView::of(c, packet))?;
        Ok(Outcome::ReportSent(n))
    }

    /// The farewell of peer `p` is sent up.
    fn bye(&mut self, p: u8) -> Result<Outcome, NoMemory>
        requires whole { IsWhole self.old }
        requires own { p < self.old.clients }
        ensures clients { self.new.clients ≡ self.old.clients }
        ensures lag { self.new.lag ≡ self.old.lag }
        ensures runs { RunsEvent (match_from W.after W.hash_of W.summary_of self.old)
            (Event.Bye p) self.old self.new result }
    {
        self.sent.push(SentView::of(p, PacketView::Bye))?;
        Ok(Outcome::ByeSent)
    }

    /// The server and the peers, at most `MAX_CLIENTS`.
    pub(crate) fn into_drilled(self) -> Drilled<W>
        requires { length self.peers ≤ MAX_CLIENTS }
        ensures server { result.server ≡ self.entry.server }
        ensures peers { result.peers ≡ self.entry.peers }
    {
        let RunningMatch { server, peers, .. } = self;
        Drilled {
            server,
            peers: Peers::from_vec(peers),
        }
    }
}

/// The packet of this number.
fn sent_at(sent: &[SentView<'_>], number: u32) -> Option<Sent>
    ensures { result ≡ slice_get sent.now number }
{
    match sent.get(number as usize) {
        Some(view) => Some(view.sent()),
        None => None,
    }
}

/// The outcome of a packet of client `client` that the server answered so.
fn answer_outcome(client: u8, packet: &Up, answer: &UpAnswer) -> Outcome
    ensures { result ≡ answer_outcome client packet.now answer.now }
{
    let frame = packet_frame(packet);
    match answer {
        UpAnswer::Entry(put) => Outcome::Entered {
            client,
            frame,
            entering: entering_of(put),
        },
        UpAnswer::Report(reported) => Outcome::Reported {
            client,
            frame,
            reported: *reported,
        },
        UpAnswer::Bye(leaving) => Outcome::Leaves {
            client,
            leaving: *leaving,
        },
        UpAnswer::Ignored => Outcome::NoPacket,
    }
}

/// The frame that a packet names, 0 of one that names none.
fn packet_frame(packet: &Up) -> u32
    ensures { result ≡ packet_frame packet.now }
{
    match packet {
        Up::Orders { frame, .. } => *frame,
        Up::Sync { frame, .. } => *frame,
        _ => 0,
    }
}

/// The outcome of a delivery of an agreed entry: it contradicts nothing, so the peer keeps it or
/// has kept it.
fn receipt_outcome(client: u8, frame: u32, receipt: Receipt) -> Outcome
    ensures { result ≡ receipt_outcome client frame receipt }
{
    match receipt {
        Receipt::Kept => Outcome::Arrived { client, frame },
        _ => Outcome::Repeated { client, frame },
    }
}
