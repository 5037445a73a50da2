ghost use Rattle.std.specs.Prelude.{◌≡◌, ◌<◌, ◌++◌, ◌∷◌, [], length, slice_get, slice_set, None, Some};
ghost use Rattle.std.specs.Prelude.{IfOk, OnOk, OnErr, IfNone, is_err, is_some, drop};
ghost use Rattle.std.specs.Option.{option_map};
ghost use Rattle.game_io.specs.declared.net.TheConstants.{MAX_LINKS};
ghost use Rattle.game_io.specs.NetState.{GivesLink, Listens, TakesBack, taken_back};
ghost use Rattle.game_io.specs.Plan.{called, faults_of, fresh, next_remains};
ghost use Rattle.game_io.specs.PlannedBytes.{sink_state, source_state};
ghost use Rattle.game_io.specs.PlannedLinks.{PlannedLinks, halves_of, net_state, next_link};
ghost use Rattle.game_io.specs.PlannedLinks.{left_of, written_of, with_link, with_link_back};
ghost use Rattle.game_io.specs.PlannedLinks.{without_link};

use crate::coming_link::ComingLink;
use crate::failed::Failed;
use crate::failing_call::FailingCall;
use crate::mem_link::MemLink;
use crate::mem_sink::MemSink;
use crate::mem_source::MemSource;
use crate::net::{LINKS_ROOM, Net};
use crate::schedule::Schedule;
use crate::sink::Sink;
use crate::source::Source;
use arrayvec::ArrayVec;
use base::NoMemory;
use std::alloc::Global;
use std::collections::VecDeque;
use std::marker::Model;

/// Links in memory, and a net in which chosen calls fail. The calls of `listen`, `accept` and
/// `dial` are numbered together. It looks at no address.
#[derive(Drop)]
pub struct MemNet {
    alloc: Global,
    coming: VecDeque<ComingLink>,
    given: ArrayVec<Option<MemLink>, LINKS_ROOM>,
    schedule: Schedule,
}

impl Model for MemNet {
    ghost Value = { PlannedLinks };

    ghost view = { λ n. record {
      coming = n.coming.items;
      given = n.given.items;
      plan = n.schedule;
    } };
}

impl MemNet {
    /// No links, and the calls of `listen`, `accept` and `dial` that are to fail.
    pub fn new(alloc: Global, failing: Vec<FailingCall>) -> Self
        ensures coming { result.coming ≡ [] }
        ensures given { result.given ≡ [] }
        ensures plan { result.plan ≡ fresh failing.items }
    {
        MemNet {
            alloc,
            coming: VecDeque::new(alloc),
            given: ArrayVec::new(),
            schedule: Schedule::new(failing),
        }
    }

    /// One link more that is to come, after the others: the bytes of its source, and the calls of
    /// its source and its sink that are to fail. It fails only where it is out of memory, and then
    /// nothing changes.
    pub fn add(
        &mut self,
        bytes: Vec<u8>,
        takes: Vec<FailingCall>,
        puts: Vec<FailingCall>,
    ) -> Result<(), NoMemory>
        ensures ok { OnOk result (self.new.coming ≡ self.old.coming
            ++ record { bytes = bytes.items; takes = takes.items; puts = puts.items } ∷ []) }
        ensures err { OnErr result (self.new.coming ≡ self.old.coming) }
        ensures given { self.new.given ≡ self.old.given }
        ensures plan { self.new.plan ≡ self.old.plan }
    {
        self.coming.push_back(ComingLink { bytes, takes, puts })?;
        Ok(())
    }

    /// The bytes that were written to link `i`, once it was taken back.
    pub fn written(&self, i: u32) -> Option<&[u8]>
        ensures { option_map (λ bytes. bytes.now) result ≡ written_of (slice_get self.now.given i) }
    {
        match self.given.as_slice().get(i as usize) {
            Some(Some(link)) => Some(link.output.bytes()),
            _ => None,
        }
    }

    /// The bytes that the source of link `i` had left, once it was taken back.
    pub fn left(&self, i: u32) -> Option<&[u8]>
        ensures { option_map (λ bytes. bytes.now) result ≡ left_of (slice_get self.now.given i) }
    {
        match self.given.as_slice().get(i as usize) {
            Some(Some(link)) => Some(link.input.left()),
            _ => None,
        }
    }

    /// The next link to come, or one without bytes.
    fn next(&mut self) -> (MemSource, MemSink)
        requires { length self.old.given < MAX_LINKS }
        ensures link { record { input = result.0; output = result.1 }
            ≡ halves_of (next_link self.old.coming) }
        ensures coming { self.new.coming ≡ drop 1 self.old.coming }
        ensures given { self.new.given ≡ self.old.given ++ None ∷ [] }
        ensures plan { self.new.plan ≡ self.old.plan }
    {
        self.given.push(None);
        let link = match self.coming.pop_front() {
            Some(link) => link,
            None => ComingLink::empty(self.alloc),
        };
        link.into_halves(self.alloc)
    }

    /// A call that gives a link.
    fn give(&mut self) -> Result<(MemSource, MemSink), Failed>
        requires { length self.old.given < MAX_LINKS }
        ensures gives { GivesLink source_state sink_state (net_state self.old) (net_state self.new)
            result }
        ensures planned { is_err result ≡ is_some (next_remains self.old.plan) }
        ensures link { IfOk result (λ link. record { input = link.0; output = link.1 }
            ≡ halves_of (next_link self.old.coming)) }
        ensures given { OnOk result (self.new ≡ with_link self.old) }
        ensures none_given { OnErr result (self.new ≡ without_link self.old) }
        ensures plan { self.new.plan ≡ called self.old.plan }
        ensures steady { IfNone (next_remains self.old.plan)
            (faults_of self.new.plan ≡ faults_of self.old.plan) }
    {
        if self.schedule.next().is_some() {
            return Err(Failed);
        }
        Ok(self.next())
    }
}

impl Net for MemNet {
    type In = MemSource;

    type Out = MemSink;

    ghost state = { λ n. net_state n };

    fn faults(&self) -> u64 {
        self.schedule.faults()
    }

    fn links(&self) -> u32 {
        self.given.len() as u32
    }

    fn listen(&mut self, _at: &str) -> Result<(), Failed>
        ensures listens { Listens (net_state self.old) (net_state self.new) result }
        ensures planned { is_err result ≡ is_some (next_remains self.old.plan) }
        ensures called { self.new ≡ without_link self.old }
        ensures plan { self.new.plan ≡ called self.old.plan }
        ensures steady { IfNone (next_remains self.old.plan)
            (faults_of self.new.plan ≡ faults_of self.old.plan) }
    {
        match self.schedule.next() {
            Some(_) => Err(Failed),
            None => Ok(()),
        }
    }

    fn accept(&mut self) -> Result<(MemSource, MemSink), Failed>
        requires { length self.old.given < MAX_LINKS }
        ensures gives { GivesLink source_state sink_state (net_state self.old) (net_state self.new)
            result }
        ensures planned { is_err result ≡ is_some (next_remains self.old.plan) }
        ensures link { IfOk result (λ link. record { input = link.0; output = link.1 }
            ≡ halves_of (next_link self.old.coming)) }
        ensures given { OnOk result (self.new ≡ with_link self.old) }
        ensures none_given { OnErr result (self.new ≡ without_link self.old) }
        ensures plan { self.new.plan ≡ called self.old.plan }
        ensures steady { IfNone (next_remains self.old.plan)
            (faults_of self.new.plan ≡ faults_of self.old.plan) }
    {
        self.give()
    }

    fn dial(&mut self, _at: &str) -> Result<(MemSource, MemSink), Failed>
        requires { length self.old.given < MAX_LINKS }
        ensures gives { GivesLink source_state sink_state (net_state self.old) (net_state self.new)
            result }
        ensures planned { is_err result ≡ is_some (next_remains self.old.plan) }
        ensures link { IfOk result (λ link. record { input = link.0; output = link.1 }
            ≡ halves_of (next_link self.old.coming)) }
        ensures given { OnOk result (self.new ≡ with_link self.old) }
        ensures none_given { OnErr result (self.new ≡ without_link self.old) }
        ensures plan { self.new.plan ≡ called self.old.plan }
        ensures steady { IfNone (next_remains self.old.plan)
            (faults_of self.new.plan ≡ faults_of self.old.plan) }
    {
        self.give()
    }

    fn take_back(&mut self, i: u32, input: MemSource, output: MemSink)
        requires { i < length self.old.given }
        ensures back { TakesBack i (source_state input) (sink_state output) (net_state self.old)
            (net_state self.new) }
        ensures whole { self.new ≡ with_link_back i
            (taken_back (source_state input) (sink_state output)) self.old }
    {
        self.given.as_mut_slice()[i as usize] = Some(MemLink { input, output });
    }

    fn link_faults(&self, i: u32) -> u64 {
        match self.given.as_slice().get(i as usize) {
            Some(Some(link)) => link.input.faults().saturating_add(link.output.faults()),
            _ => 0,
        }
    }
}
