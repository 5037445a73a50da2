ghost use Rattle.std.specs.Prelude.{◌≡◌, ◌++◌, ◌∷◌, [], ◌+◌, ◌-◌, ◌≤◌, ◌^◌, min, take, IfOk, OnOk};
ghost use Rattle.std.specs.Bool.{OnTrue};
ghost use Rattle.std.specs.Prelude.{OnErr, is_err, true};
ghost use Rattle.base.specs.Cause.{Increased};
ghost use Rattle.datagram_link.specs.PostState.{Receives, Sends, with_sent};
ghost use Rattle.datagram_link.specs.PlannedPost.{post_state, is_planned};

use crate::arrival::Arrival;
use crate::limits::RECEIVE_ROOM;
use crate::post::Post;
use base::{FaultCount, List, NoMemory};
use game_io::Failed;
use std::alloc::Global;
use std::collections::VecDeque;
use std::marker::Model;

/// A post in memory. Its datagrams, those that wait and those that were sent, are observable, and
/// chosen calls fail. The calls of `send` and `receive` are numbered together, from 0. A `send`
/// that is out of memory fails too.
#[derive(Drop)]
pub struct MemPost {
    alloc: Global,
    waiting: VecDeque<List<u8>>,
    sent: Vec<List<u8>>,
    calls: u32,
    failing: Vec<u32>,
    faults: FaultCount,
}

impl Model for MemPost {
    ghost use Rattle.datagram_link.specs.PlannedPost.{PlannedPost};

    ghost Value = { PlannedPost };

    ghost view = { λ p. record {
      held = record { waiting = p.waiting.items; sent = p.sent.items };
      calls = p.calls;
      failing = p.failing.items;
      faults = p.faults;
    } };
}

impl MemPost {
    /// A post at which nothing waits, and the calls that are to fail.
    pub fn new(alloc: Global, failing: Vec<u32>) -> Self
        ensures { result ≡ record {
          held = record { waiting = []; sent = [] };
          calls = 0;
          failing = failing.items;
          faults = 0;
        } }
    {
        MemPost {
            alloc,
            waiting: VecDeque::new(alloc),
            sent: Vec::new(alloc),
            calls: 0,
            failing,
            faults: FaultCount::new(),
        }
    }

    /// One datagram more waits, after the others. It fails only where it is out of memory, and then
    /// nothing changes.
    pub fn add(&mut self, gram: Vec<u8>) -> Result<(), NoMemory>
        ensures ok { OnOk result (self.new ≡ record self.old {
          held = record self.old.held { waiting = self.old.held.waiting ++ gram.items ∷ [] };
        }) }
        ensures err { OnErr result (self.new ≡ self.old) }
    {
        self.waiting.push_back(List::from_vec(gram))?;
        Ok(())
    }

    /// The datagrams that were sent, in order.
    pub fn sent(&self) -> &[List<u8>]
        ensures { result.now ≡ self.now.held.sent }
    {
        &self.sent
    }

    /// Keeps a copy of a datagram that is sent.
    fn keep(&mut self, gram: &[u8]) -> Result<(), NoMemory>
        ensures ok { OnOk result (self.new ≡ record self.old {
          held = with_sent (gram.now ∷ []) self.old.held;
        }) }
        ensures err { OnErr result (self.new ≡ self.old) }
    {
        let copy = copy_gram(self.alloc, gram)?;
        self.sent.push(copy)?;
        Ok(())
    }

    /// Begins a call: true where it is to fail, and then the fault is counted.
    fn begin(&mut self) -> bool
        ensures fails { result ≡ is_planned self.old }
        ensures held { self.new.held ≡ self.old.held }
        ensures calls { self.new.calls ≡ min (self.old.calls + 1) (2 ^ 32 - 1) }
        ensures failing { self.new.failing ≡ self.old.failing }
        ensures later { self.old.faults ≤ self.new.faults }
        ensures rose { OnTrue result (Increased self.old.faults self.new.faults) }
    {
        let fails = self.failing.contains(&self.calls);
        self.calls = self.calls.saturating_add(1);
        if fails {
            self.faults.raise();
        }
        fails
    }
}

/// A copy of a datagram.
fn copy_gram(alloc: Global, gram: &[u8]) -> Result<List<u8>, NoMemory>
    ensures { IfOk result (λ copy. copy ≡ gram.now) }
{
    let bytes = Vec::from_slice(alloc, gram)?;
    Ok(List::from_vec(bytes))
}

/// Gives a datagram, or its first bytes where there is no room for all, and answers how many.
fn give(gram: &[u8], into: &mut [u8; 266]) -> usize
    ensures fits { result ≤ RECEIVE_ROOM }
    ensures given { take result into.new ≡ take RECEIVE_ROOM gram.now }
{
    let count = gram.len().min(RECEIVE_ROOM);
    into[..count].copy_from_slice(&gram[..count]);
    count
}

impl Post for MemPost {
    ghost state = { λ p. post_state p };

    fn faults(&self) -> u64 {
        self.faults.get()
    }

    fn send(&mut self, gram: &[u8]) -> Result<(), Failed>
        ensures sends { Sends (post_state self.old) (post_state self.new) gram.now result }
        ensures planned { is_planned self.old ≡ true → is_err result ≡ true }
    {
        if self.begin() {
            return Err(Failed);
        }
        if self.keep(gram).is_err() {
            self.faults.raise();
            return Err(Failed);
        }
        Ok(())
    }

    fn receive(&mut self, into: &mut [u8; 266]) -> Result<Arrival, Failed>
        ensures receives { Receives (post_state self.old) (post_state self.new) into.new result }
        ensures planned { is_err result ≡ is_planned self.old }
    {
        if self.begin() {
            return Err(Failed);
        }
        match self.waiting.pop_front() {
            None => Ok(Arrival::Quiet),
            Some(gram) => Ok(Arrival::Got(give(gram.as_slice(), into))),
        }
    }
}
