ghost use Rattle.std.specs.Prelude.{◌≡◌, ◌+◌, ◌<◌, ◌≤◌, IfOk, OnOk, OnErr};
ghost use Rattle.frame_core.specs.Tick.{tick_answer};
ghost use Rattle.peer_core.specs.Arrived.{ready_by as readiness_by, IsRising, IsEnded};
ghost use Rattle.peer_core.specs.Delivery.{delivery_of, KeepsEntries, MeansDelivery};
ghost use Rattle.peer_core.specs.Peer.{fresh_peer, delivered_peer, seal_answer, sealed_peer};
ghost use Rattle.peer_core.specs.Peer.{ticked_peer, report_of};
ghost use Rattle.peer_core.specs.Receipt.{receipt_of};
ghost use Rattle.peer_core.specs.Seal.{MeansSeal};
ghost use Rattle.peer_core.specs.Tick.{MeansTick};

use crate::client_entries::ClientEntries;
use crate::delivered::Delivered;
use crate::inbox::{deliver_to, fill_frame, input, left, no_entries, receive_from};
use crate::receipt::Receipt;
use crate::report::Report;
use crate::seal_fault::SealFault;
use base::NoMemory;
use frame_core::{Input, Inputs, Ready, Sim, TickAnswer, ready_by};
use game_orders::{Entry, Frame, MAX_CLIENTS, MAX_FRAMES, MAX_LAG};
use std::alloc::Global;
use std::marker::Model;

/// One client of a match, with its own world.
pub struct Peer<S: Sim> {
    me: u8,
    clients: u8,
    lag: u8,
    entries: Vec<ClientEntries>,
    ticked: u32,
    sealed: u32,
    // the frame of a tick, filled anew each time, so that its room is made once
    frame: Frame,
    sim: S,
}

// By hand, so that what drops one needs no proof of how its parts are dropped.
impl<S: Sim> Drop for Peer<S> {
    fn drop(self) {
        let Self {
            me: _,
            clients: _,
            lag: _,
            entries: _,
            ticked: _,
            sealed: _,
            frame: _,
            sim: _,
        } = self;
    }
}

impl<S: Sim> Model for Peer<S> {
    ghost use Rattle.std.specs.Prelude.{◌≡◌, length};
    ghost use Rattle.peer_core.specs.Entries.{all_arrived};
    ghost use Rattle.peer_core.specs.Peer.{PeerState, IsPeer, peer_state};

    ghost Value = { PeerState S };

    ghost view = { λ p.
        peer_state p.me p.clients p.lag (all_arrived 0 p.entries.items) p.ticked p.sealed p.sim };

    ghost invariant = { λ p.
        IsPeer S.clients_of S.steps
        (peer_state p.me p.clients p.lag (all_arrived 0 p.entries.items) p.ticked p.sealed p.sim)
        × (length p.entries.items ≡ p.clients) };
}

/// What reached the peer, of each client.
impl<S: Sim> Inputs for Peer<S> {
    ghost use Rattle.peer_core.specs.Arrived.{inputs_by};

    ghost inputs = { λ peer n. inputs_by peer.arrived peer.clients n };

    #[tactic(auto, using(crate::proofs::EachLemmas::inputs_length))]
    fn client_count(&self) -> u8 {
        self.clients
    }

    fn input(&self, c: u8, n: u32) -> Input {
        input(&self.entries, c, n)
    }
}

impl<S: Sim> Peer<S> {
    /// A peer of 1 to `MAX_CLIENTS` clients with a lag of 1 to `MAX_LAG` frames, over a world of
    /// as many clients that has made no step. `me` is its own number, below the number of
    /// clients. Out of memory is its one error.
    pub fn create(alloc: Global, me: u8, clients: u8, lag: u8, sim: S) -> Result<Peer<S>, NoMemory>
        requires own { me < clients }
        requires most { clients ≤ MAX_CLIENTS }
        requires least_lag { 1 ≤ lag }
        requires most_lag { lag ≤ MAX_LAG }
        requires world { S.clients_of sim ≡ clients }
        requires fresh { S.steps sim ≡ 0 }
        ensures { IfOk result (λ peer. peer ≡ fresh_peer me clients lag sim) }
    {
        Ok(Peer {
            me,
            clients,
            lag,
            entries: no_entries(alloc, clients)?,
            ticked: 0,
            sealed: 0,
            frame: Frame::empty(),
            sim,
        })
    }

    /// The peer's own number, below the number of clients.
    pub fn me(&self) -> u8
        ensures value { result ≡ self.now.me }
        ensures limit { result < self.now.clients }
    {
        self.me
    }

    /// The number of clients, 1 to `MAX_CLIENTS`.
    pub fn clients(&self) -> u8
        ensures value { result ≡ self.now.clients }
        ensures least { 1 ≤ result }
        ensures most { result ≤ MAX_CLIENTS }
    {
        self.clients
    }

    /// How many frames the peer may seal ahead of its ticked ones, 1 to `MAX_LAG`.
    pub fn lag(&self) -> u8
        ensures value { result ≡ self.now.lag }
        ensures least { 1 ≤ result }
        ensures most { result ≤ MAX_LAG }
    {
        self.lag
    }

    /// The number of frames that the peer has ticked, at most `MAX_FRAMES`.
    pub fn ticked(&self) -> u32
        ensures value { result ≡ self.now.ticked }
        ensures limit { result ≤ MAX_FRAMES }
    {
        self.ticked
    }

    /// The number of frames that the peer has sealed, at most `MAX_FRAMES`.
    pub fn sealed(&self) -> u32
        ensures value { result ≡ self.now.sealed }
        ensures limit { result ≤ MAX_FRAMES }
        ensures lag { result ≤ self.now.ticked + self.now.lag }
    {
        self.sealed
    }

    /// The peer's world.
    pub fn sim(&self) -> &S
        ensures { result.now ≡ self.now.world }
    {
        &self.sim
    }

    /// The peer's world, of which nothing else is kept.
    pub fn into_sim(self) -> S
        ensures { result ≡ self.world }
    {
        let Self {
            me: _,
            clients: _,
            lag: _,
            entries: _,
            ticked: _,
            sealed: _,
            frame: _,
            sim,
        } = self;
        sim
    }

    /// Delivers the agreed entry of client `c`, which is below the number of clients, at frame
    /// `n`. The first applicable case decides:
    ///
    /// 1. `n` is above `MAX_FRAMES`, or it is `MAX_FRAMES` and the entry is a play: `Beyond`.
    /// 2. The same entry of `c` is kept at `n`: `Repeat`.
    /// 3. Another entry of `c` is kept at `n`: `Conflict` with that one.
    /// 4. The departure of `c` is kept before `n`, or the entry is a departure and some entry
    ///    of `c` is kept after `n`: `Past` with the frame of the departure, or with the least
    ///    such frame.
    /// 5. `Kept`: the entry is kept, also where frames before it are missing. No other case changes
    ///    anything.
    ///
    /// After any answer what is kept stands by rising client and then by rising frame, no two
    /// entries of a client at one frame, and nothing stands after a client's departure. What was
    /// kept stays. Out of memory is its one error, and then nothing has changed.
    #[tactic(auto, using(crate::proofs::RisingLemmas::delivered_keeps))]
    pub fn deliver(&mut self, c: u8, n: u32, e: Entry) -> Result<Delivered, NoMemory>
        requires { c < self.old.clients }
        ensures answer { IfOk result (λ answer. answer ≡ delivery_of self.old.arrived c n e) }
        ensures after { OnOk result (self.new ≡ delivered_peer self.old c n e) }
        ensures means { IfOk result (λ answer. MeansDelivery self.old.arrived c n e answer) }
        ensures keeps { OnOk result (KeepsEntries self.old.arrived self.new.arrived c n e) }
        ensures rising { IsRising self.new.arrived }
        ensures ended { IsEnded self.new.arrived }
        ensures err { OnErr result (self.new ≡ self.old) }
    {
        deliver_to(&mut self.entries, c, n, e)
    }

    /// Delivers a lent entry of client `c`, which is below the number of clients, at frame `n`, as
    /// `deliver` does: it changes the same, and answers the same without the kept entry. Where it
    /// is kept, no more is copied than its orders. Out of memory is its one error, and then nothing
    /// has changed.
    pub fn receive(&mut self, c: u8, n: u32, e: &Entry) -> Result<Receipt, NoMemory>
        requires { c < self.old.clients }
        ensures answer { IfOk result (λ receipt. receipt
            ≡ receipt_of (delivery_of self.old.arrived c n e.now)) }
        ensures after { OnOk result (self.new ≡ delivered_peer self.old c n e.now) }
        ensures err { OnErr result (self.new ≡ self.old) }
    {
        receive_from(&mut self.entries, c, n, e)
    }

    /// Seals the peer's next frame, whose number is the count of sealed frames so far. Refused,
    /// in this order: `LeftAlready` exactly where the peer's own departure has reached it,
    /// `MatchFull` exactly where it has sealed `MAX_FRAMES` frames, `TooEarly` exactly where it
    /// has sealed as many frames ahead of its ticked ones as its lag says. A refusal changes
    /// nothing.
    pub fn seal(&mut self) -> Result<u32, SealFault>
        ensures answer { result ≡ seal_answer self.old.arrived self.old.me self.old.lag
            self.old.ticked self.old.sealed }
        ensures after { self.new ≡ sealed_peer self.old }
        ensures means { MeansSeal self.old self.new result }
    {
        if left(&self.entries, self.me) {
            return Err(SealFault::LeftAlready);
        }
        if self.sealed == MAX_FRAMES {
            return Err(SealFault::MatchFull);
        }
        if self.sealed == self.ticked + u32::from(self.lag) {
            return Err(SealFault::TooEarly);
        }
        let frame = self.sealed;
        self.sealed += 1;
        Ok(frame)
    }

    /// Ticks the next frame, whose number is the count of ticked frames, if it is ready: if each
    /// client's play at it, or its departure at or before it, has reached the peer, and one of
    /// them is a play. `NotYet` names the least client of which neither has reached it; `Over`
    /// means that the departures of all have. Only `Ticked` changes anything: the world makes one
    /// step by the frame, and the count grows by one.
    pub fn tick(&mut self) -> TickAnswer
        ensures answer { result ≡ tick_answer
            (readiness_by self.old.arrived self.old.clients self.old.ticked) self.old.ticked }
        ensures after { self.new ≡ ticked_peer S.after self.old }
        ensures means { MeansTick S.after self.old self.new result }
    {
        let ticked = self.ticked;
        match ready_by(self, ticked) {
            Ready::Yes => {
                self.frame.clear();
                fill_frame(&self.entries, self.clients, ticked, &mut self.frame);
                self.sim.step(&self.frame);
                self.ticked += 1;
                TickAnswer::Ticked(ticked)
            }
            Ready::NotYet(c) => TickAnswer::NotYet(c),
            Ready::Over => TickAnswer::Over,
        }
    }

    /// The last ticked frame and the hash of the world after it. None exactly before the first
    /// tick.
    pub fn report(&self) -> Option<Report>
        ensures { result ≡ report_of S.hash_of self.now }
    {
        if self.ticked == 0 {
            return None;
        }
        Some(Report {
            frame: self.ticked - 1,
            hash: self.sim.hash(),
        })
    }
}
