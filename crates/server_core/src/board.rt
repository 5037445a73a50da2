ghost use Rattle.std.specs.Prelude.{◌≡◌, ◌+◌, ◌<◌, ◌≤◌, length, IfOk, OnOk, OnErr};
ghost use Rattle.server_core.specs.Board.{empty_board, reports_of, report_answer, KeepsFirst};
ghost use Rattle.server_core.specs.Board.{board_after_report, board_with_wanted};
ghost use Rattle.server_core.specs.Alarm.{alarm_of, IsAlarm};

use crate::alarm::Alarm;
use crate::client_reports::ClientReports;
use crate::reported::Reported;
use base::NoMemory;
use frame_core::{MAX_STEPS, Sim};
use game_orders::{Frame, MAX_CLIENTS, MAX_FRAMES};
use std::alloc::Global;
use std::marker::Model;

/// The hashes that the clients reported, and those that the server's world had. Either may come
/// first.
#[derive(Drop)]
pub struct Board {
    reports: Vec<ClientReports>,
    wanted: Vec<u64>,
}

impl Model for Board {
    ghost use Rattle.server_core.specs.Board.{BoardState, IsBoard};

    ghost Value = { BoardState };

    ghost view = { λ board. record { reports = board.reports.items; wanted = board.wanted.items } };

    ghost invariant = { λ board. IsBoard board.reports.items };
}

impl Board {
    /// The empty board of 1 to `MAX_CLIENTS` clients.
    pub fn create(alloc: Global, clients: u8) -> Result<Board, NoMemory>
        requires least { 1 ≤ clients }
        requires most { clients ≤ MAX_CLIENTS }
        ensures { IfOk result (λ board. board ≡ empty_board clients) }
    {
        let mut reports = Vec::new(alloc);
        for _client in 0..clients {
            reports.push(ClientReports::new(alloc))?;
        }
        Ok(Board {
            reports,
            wanted: Vec::new(alloc),
        })
    }

    /// The number of clients, 1 to `MAX_CLIENTS`.
    pub fn clients(&self) -> u8
        ensures value { result ≡ length self.now.reports }
        ensures least { 1 ≤ result }
        ensures most { result ≤ MAX_CLIENTS }
    {
        self.reports.len() as u8
    }

    /// Takes a report of client `c` that its world has hash `h` after frame `n`. `Beyond` exactly
    /// where `n` is `MAX_FRAMES` or more. Else `Repeat` exactly where a report of the client for
    /// the frame is kept, which stays. Else `Kept`, and no other answer changes anything.
    #[tactic(auto, using(crate::proofs::BoardLemmas::keeps_first))]
    pub fn reported(&mut self, c: u8, n: u32, h: u64) -> Result<Reported, NoMemory>
        requires { c < length self.old.reports }
        ensures answer { IfOk result (λ answer.
            answer ≡ report_answer (reports_of self.old.reports c) n) }
        ensures after { OnOk result (self.new ≡ board_after_report self.old c n h) }
        ensures keeps { OnOk result (KeepsFirst self.old.reports self.new.reports c n h) }
        ensures err { OnErr result (self.new ≡ self.old) }
    {
        if MAX_FRAMES <= n {
            return Ok(Reported::Beyond);
        }
        if self.reports[c as usize].at(n).is_some() {
            return Ok(Reported::Repeat);
        }
        self.reports[c as usize].keep(n, h)?;
        Ok(Reported::Kept)
    }

    /// Adds the hash of the server's world after its next ticked frame.
    pub fn wanted(&mut self, h: u64) -> Result<(), NoMemory>
        ensures after { OnOk result (self.new ≡ board_with_wanted self.old h) }
        ensures err { OnErr result (self.new ≡ self.old) }
    {
        self.wanted.push(h)?;
        Ok(())
    }

    /// The least frame for which a report of client `c` is kept and a hash is wanted that differ,
    /// with both hashes. None exactly where there is no such frame.
    #[tactic(auto, using(crate::proofs::AlarmLemmas::least_alarm))]
    pub fn alarm(&self, c: u8) -> Option<Alarm>
        requires { c < length self.now.reports }
        ensures value { result ≡ alarm_of (reports_of self.now.reports c) self.now.wanted }
        ensures least { IsAlarm (reports_of self.now.reports c) self.now.wanted result }
    {
        self.reports[c as usize].alarm(&self.wanted)
    }

    /// Steps the world by a frame, and adds its hash then as the next wanted one. The room for the
    /// hash is taken first, since a step can't be taken back.
    pub(crate) fn step<S: Sim>(&mut self, sim: &mut S, frame: &Frame) -> Result<(), NoMemory>
        requires whole { length frame.now ≡ S.clients_of sim.old }
        requires more { S.steps sim.old < MAX_STEPS }
        ensures world { OnOk result (sim.new ≡ S.after sim.old frame.now) }
        ensures clients { OnOk result (S.clients_of sim.new ≡ S.clients_of sim.old) }
        ensures steps { OnOk result (S.steps sim.new ≡ S.steps sim.old + 1) }
        ensures after { OnOk result (self.new ≡ board_with_wanted self.old (S.hash_of sim.new)) }
        ensures err { OnErr result (self.new ≡ self.old) }
        ensures same { OnErr result (sim.new ≡ sim.old) }
    {
        self.wanted.reserve(1)?;
        sim.step(frame);
        self.wanted.push_reserved(sim.hash());
        Ok(())
    }

    /// The wanted hashes, by frame.
    pub(crate) fn marks(&self) -> &[u64]
        ensures { result.now ≡ self.now.wanted }
    {
        &self.wanted
    }
}
