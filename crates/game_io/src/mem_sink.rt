ghost use Rattle.std.specs.Prelude.{◌≡◌, ◌⊎◌, ◌++◌, ◌≤◌, ℕ, List, [], Some, IfSome, IfNone, IsErr};
ghost use Rattle.std.specs.Prelude.{OnOk, OnErr, is_ok, if◌then◌else◌};
ghost use Rattle.base.specs.Cause.{Increased};
ghost use Rattle.base.specs.Written.{WrotePrefix};
ghost use Rattle.game_io.specs.SinkState.{WritesBytes};
ghost use Rattle.game_io.specs.Plan.{faults_of, next_remains, fresh, missed};
ghost use Rattle.game_io.specs.PlannedBytes.{PlannedBytes, sink_state, remaining, with_bytes};
ghost use Rattle.game_io.specs.PlannedBytes.{without_memory};

use crate::failed::Failed;
use crate::failing_call::{FailingCall, Remains};
use crate::remaining::remaining;
use crate::schedule::Schedule;
use crate::sink::Sink;
use std::alloc::Global;
use std::marker::Model;

/// A sink that keeps what is written, and in which chosen calls of `put` fail. A `put` that is out
/// of memory fails too.
#[derive(Drop)]
pub struct MemSink {
    bytes: Vec<u8>,
    schedule: Schedule,
}

impl Model for MemSink {
    ghost Value = { PlannedBytes };

    ghost view = { λ s. record { bytes = s.bytes.items; plan = s.schedule } };
}

impl MemSink {
    /// Nothing written yet, and the calls of `put` that are to fail.
    pub fn new(alloc: Global, failing: Vec<FailingCall>) -> Self
        ensures bytes { result.bytes ≡ [] }
        ensures plan { result.plan ≡ fresh failing.items }
    {
        MemSink {
            bytes: Vec::new(alloc),
            schedule: Schedule::new(failing),
        }
    }

    /// Appends these bytes, or counts a fault where it is out of memory for them.
    fn add(&mut self, bytes: &[u8]) -> Result<(), Failed>
        ensures ok { OnOk result
            (self.new ≡ record { bytes = self.old.bytes ++ bytes.now; plan = self.old.plan }) }
        ensures err { OnErr result
            (self.new ≡ record { bytes = self.old.bytes; plan = missed self.old.plan }) }
        ensures prefix { WrotePrefix (Some self.old.bytes) (Some self.new.bytes) bytes.now }
        ensures later { faults_of self.old.plan ≤ faults_of self.new.plan }
        ensures rose { OnErr result (Increased (faults_of self.old.plan) (faults_of self.new.plan)) }
    {
        match self.bytes.extend_from_slice(bytes) {
            Ok(()) => Ok(()),
            Err(_) => {
                self.schedule.miss();
                Err(Failed)
            }
        }
    }

    /// The bytes that were written.
    pub fn bytes(&self) -> &[u8]
        ensures { result.now ≡ self.now.bytes }
    {
        &self.bytes
    }
}

impl Sink for MemSink {
    ghost state = { λ s. sink_state s };

    fn faults(&self) -> u64 {
        self.schedule.faults()
    }

    fn put(&mut self, piece: &[u8]) -> Result<(), Failed>
        ensures puts { WritesBytes (sink_state self.old) (sink_state self.new)
            piece.now result (IsErr result) }
        ensures planned { IfSome (next_remains self.old.plan) (λ remains. IsErr result
            × ((self.new ≡ with_bytes self.old (remaining remains piece.now))
            ⊎ (self.new ≡ without_memory self.old))) }
        ensures other { IfNone (next_remains self.old.plan) (self.new
            ≡ (if is_ok result then with_bytes self.old piece.now else without_memory self.old)) }
    {
        match self.schedule.next() {
            Some(remains) => {
                let _written = self.add(remaining(remains, piece));
                Err(Failed)
            }
            None => self.add(piece),
        }
    }
}
