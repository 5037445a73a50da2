ghost use Rattle.std.specs.Prelude.{◌≡◌, ◌≤◌, ℕ, List, Some, length, drop, is_ok, true};
ghost use Rattle.game_io.specs.SourceState.{TakesBytes, FillsPlace};

use crate::failed::Failed;
use crate::source::Source;
use std::marker::Model;

/// A source of given bytes that never fails: its count of faults is always 0.
#[derive(Drop)]
pub struct SureSource {
    bytes: Vec<u8>,
    taken: usize,
}

impl Model for SureSource {
    ghost Value = { List ℕ };

    ghost view = { λ s. drop s.taken s.bytes.items };

    ghost invariant = { λ s. s.taken ≤ length s.bytes.items };
}

impl SureSource {
    /// A source of these bytes.
    pub fn new(bytes: Vec<u8>) -> Self
        ensures { result ≡ bytes.items }
    {
        SureSource { bytes, taken: 0 }
    }

    /// The bytes that are left.
    pub fn left(&self) -> &[u8]
        ensures { result.now ≡ self.now }
    {
        &self.bytes[self.taken..]
    }
}

impl Source for SureSource {
    ghost state = { λ s. record { left = Some s; faults = 0 } };

    fn faults(&self) -> u64 {
        0
    }

    fn take(&mut self, into: &mut [u8]) -> Result<usize, Failed>
        ensures takes { TakesBytes (record { left = Some self.old; faults = 0 })
            (record { left = Some self.new; faults = 0 }) into.new result }
        ensures fills { FillsPlace into.old into.new result }
        ensures sure { is_ok result ≡ true }
    {
        let count = into.len().min(self.bytes.len() - self.taken);
        into[..count].copy_from_slice(&self.bytes[self.taken..self.taken + count]);
        self.taken += count;
        Ok(count)
    }
}
