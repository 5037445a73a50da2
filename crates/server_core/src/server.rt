ghost use Rattle.std.specs.Prelude.{◌≡◌, ◌<◌, ◌≤◌, length, IfOk, OnOk, OnErr};
ghost use Rattle.frame_core.specs.Agreed.{AreReady};
ghost use Rattle.frame_core.specs.Column.{column_of, leave_answer};
ghost use Rattle.frame_core.specs.Grows.{Grows};
ghost use Rattle.frame_core.specs.Ready.{ready_at};
ghost use Rattle.frame_core.specs.Tick.{tick_answer};
ghost use Rattle.server_core.specs.Server.{fresh_server, board_of, packet_answer};
ghost use Rattle.server_core.specs.Server.{after_packet, after_drop, after_tick};
ghost use Rattle.server_core.specs.Tick.{MeansTick};

use crate::board::Board;
use crate::up_answer::UpAnswer;
use base::NoMemory;
use frame_core::{Columns, Leaving, Ready, Sim, TickAnswer};
use game_orders::{Frame, MAX_CLIENTS, MAX_FRAMES};
use order_packets::Up;
use std::alloc::Global;
use std::marker::Model;

/// The server of a match, with its own world.
pub struct Server<S: Sim> {
    columns: Columns,
    board: Board,
    ticked: u32,
    // the frame of a tick, filled anew each time, so that its room is made once
    frame: Frame,
    sim: S,
}

// By hand, so that what drops one needs no proof of how its parts are dropped.
impl<S: Sim> Drop for Server<S> {
    fn drop(self) {
        let Self {
            columns: _,
            board: _,
            ticked: _,
            frame: _,
            sim: _,
        } = self;
    }
}

impl<S: Sim> Model for Server<S> {
    ghost use Rattle.server_core.specs.Server.{ServerState, IsServer};

    ghost Value = { ServerState S };

    ghost view = { λ s. record {
      columns = s.columns;
      reports = s.board.reports;
      ticked = s.ticked;
      marks = s.board.wanted;
      world = s.sim;
    } };

    ghost invariant = { λ s. IsServer S.clients_of S.steps (record {
      columns = s.columns;
      reports = s.board.reports;
      ticked = s.ticked;
      marks = s.board.wanted;
      world = s.sim;
    }) };
}

impl<S: Sim> Server<S> {
    /// The server of a match of 1 to `MAX_CLIENTS` clients, over a world of as many clients that
    /// has made no step.
    #[tactic(auto, using(frame_core::proofs::AgreedLemmas::no_frames_ready))]
    pub fn create(alloc: Global, clients: u8, sim: S) -> Result<Server<S>, NoMemory>
        requires least { 1 ≤ clients }
        requires most { clients ≤ MAX_CLIENTS }
        requires world { S.clients_of sim ≡ clients }
        requires fresh { S.steps sim ≡ 0 }
        ensures { IfOk result (λ server. server ≡ fresh_server clients sim) }
    {
        Ok(Server {
            columns: Columns::create(alloc, clients)?,
            board: Board::create(alloc, clients)?,
            ticked: 0,
            frame: Frame::empty(),
            sim,
        })
    }

    /// Takes a packet of client `c`, which is below the number of clients. Orders are put as a play
    /// into the client's column, the board takes a report, a farewell lets the client leave, and a
    /// greeting is `Ignored`.
    pub fn up(&mut self, c: u8, p: &Up) -> Result<UpAnswer, NoMemory>
        requires { c < length self.old.columns }
        ensures answer { IfOk result (λ answer.
            answer ≡ packet_answer self.old.columns self.old.reports c p.now) }
        ensures after { OnOk result (self.new ≡ after_packet self.old c p.now) }
        ensures grows { Grows self.old.columns self.new.columns }
        ensures err { OnErr result (self.new ≡ self.old) }
    {
        match p {
            Up::Hello { .. } => Ok(UpAnswer::Ignored),
            Up::Orders { frame, orders } => {
                let put = self.columns.put_play(c, *frame, orders.as_slice())?;
                Ok(UpAnswer::Entry(put))
            }
            Up::Sync { frame, hash } => {
                let reported = self.board.reported(c, *frame, *hash)?;
                Ok(UpAnswer::Report(reported))
            }
            Up::Bye => Ok(UpAnswer::Bye(self.columns.leave(c))),
        }
    }

    /// Lets client `c`, which is below the number of clients, leave. `Already` exactly where it has
    /// left, and then nothing changes.
    pub fn drop_client(&mut self, c: u8) -> Leaving
        requires { c < length self.old.columns }
        ensures answer { result ≡ leave_answer (column_of self.old.columns c) }
        ensures after { self.new ≡ after_drop self.old c }
        ensures grows { Grows self.old.columns self.new.columns }
    {
        self.columns.leave(c)
    }

    /// Ticks the next frame, whose number is the count of ticked frames, if it is ready by the
    /// columns. `NotYet` has the least client that has neither a play at it nor left at or before
    /// it. `Over` exactly where all have left by then. Only `Ticked` changes anything: the world
    /// makes one step by the agreed frame, the count grows by one, and the world's hash is the next
    /// mark.
    #[tactic(auto, using(frame_core::proofs::AgreedLemmas::one_more_ready))]
    pub fn tick(&mut self) -> Result<TickAnswer, NoMemory>
        ensures answer { IfOk result (λ answer.
            answer ≡ tick_answer (ready_at self.old.columns self.old.ticked) self.old.ticked) }
        ensures after { OnOk result (self.new ≡ after_tick S.after S.hash_of self.old) }
        ensures means { IfOk result (MeansTick S.after S.hash_of self.old self.new) }
        ensures err { OnErr result (self.new ≡ self.old) }
    {
        let frame = self.ticked;
        match self.columns.ready(frame) {
            Ready::Yes => {
                self.columns.fill_frame(frame, &mut self.frame);
                self.board.step(&mut self.sim, &self.frame)?;
                self.ticked += 1;
                Ok(TickAnswer::Ticked(frame))
            }
            Ready::NotYet(c) => Ok(TickAnswer::NotYet(c)),
            Ready::Over => Ok(TickAnswer::Over),
        }
    }

    /// The number of frames that the server has ticked, at most `MAX_FRAMES`. Each of them is ready
    /// by its columns.
    pub fn ticked(&self) -> u32
        ensures value { result ≡ self.now.ticked }
        ensures limit { result ≤ MAX_FRAMES }
        ensures ready { AreReady self.now.columns result }
    {
        self.ticked
    }

    /// The columns that the server agreed.
    pub fn columns(&self) -> &Columns
        ensures value { result.now ≡ self.now.columns }
        ensures ready { AreReady result.now self.now.ticked }
    {
        &self.columns
    }

    /// The hash of the server's world after each ticked frame.
    pub fn marks(&self) -> &[u64]
        ensures value { result.now ≡ self.now.marks }
        ensures count { length result.now ≡ self.now.ticked }
    {
        self.board.marks()
    }

    /// The board: what the clients reported, and the marks as the wanted hashes.
    pub fn board(&self) -> &Board
        ensures value { result.now ≡ board_of self.now }
        ensures clients { length result.now.reports ≡ length self.now.columns }
    {
        &self.board
    }

    /// The server's world.
    pub fn sim(&self) -> &S
        ensures value { result.now ≡ self.now.world }
        ensures clients { S.clients_of result.now ≡ length self.now.columns }
        ensures steps { S.steps result.now ≡ self.now.ticked }
        ensures ready { AreReady self.now.columns self.now.ticked }
    {
        &self.sim
    }
}
