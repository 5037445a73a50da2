ghost use Rattle.std.specs.Prelude.{◌≡◌, is_err, is_some};
ghost use Rattle.game_io.specs.SourceState.{TakesBytes, FillsPlace};
ghost use Rattle.game_io.specs.Plan.{next_remains, fresh, called};
ghost use Rattle.game_io.specs.PlannedBytes.{PlannedBytes, source_state};

use crate::failed::Failed;
use crate::failing_call::FailingCall;
use crate::schedule::Schedule;
use crate::source::Source;
use crate::sure_source::SureSource;
use std::marker::Model;

/// A source of given bytes in which chosen calls of `take` fail.
#[derive(Drop)]
pub struct MemSource {
    source: SureSource,
    schedule: Schedule,
}

impl Model for MemSource {
    ghost Value = { PlannedBytes };

    ghost view = { λ s. record { bytes = s.source; plan = s.schedule } };
}

impl MemSource {
    /// A source of these bytes, and the calls of `take` that are to fail.
    pub fn new(bytes: Vec<u8>, failing: Vec<FailingCall>) -> Self
        ensures bytes { result.bytes ≡ bytes.items }
        ensures plan { result.plan ≡ fresh failing.items }
    {
        MemSource {
            source: SureSource::new(bytes),
            schedule: Schedule::new(failing),
        }
    }

    /// The bytes that are left.
    pub fn left(&self) -> &[u8]
        ensures { result.now ≡ self.now.bytes }
    {
        self.source.left()
    }
}

impl Source for MemSource {
    ghost state = { λ s. source_state s };

    fn faults(&self) -> u64 {
        self.schedule.faults()
    }

    fn take(&mut self, into: &mut [u8]) -> Result<usize, Failed>
        ensures takes { TakesBytes (source_state self.old) (source_state self.new) into.new result }
        ensures fills { FillsPlace into.old into.new result }
        ensures planned { is_err result ≡ is_some (next_remains self.old.plan) }
        ensures plan { self.new.plan ≡ called self.old.plan }
    {
        if self.schedule.next().is_some() {
            return Err(Failed);
        }
        self.source.take(into)
    }
}
