ghost use Rattle.std.specs.Prelude.{◌≡◌, ◌++◌, [], length, min, take, drop, OnOk, OnErr};

use base::NoMemory;
use std::alloc::Global;
use std::marker::Model;

/// The bytes of a link that came into order and that nobody has read.
#[derive(Drop)]
pub(crate) struct Inbox {
    bytes: Vec<u8>,
}

impl Model for Inbox {
    ghost use Rattle.std.specs.Prelude.{List, ℕ};

    ghost Value = { List ℕ };

    ghost view = { λ inbox. inbox.bytes.items };
}

impl Inbox {
    /// No bytes.
    pub(crate) fn new(alloc: Global) -> Self
        ensures { result ≡ [] }
    {
        Inbox {
            bytes: Vec::new(alloc),
        }
    }

    /// How many they are.
    pub(crate) fn len(&self) -> usize
        ensures { result ≡ length self.now }
    {
        self.bytes.len()
    }

    /// These bytes came after the others. It fails only where it is out of memory, and then nothing
    /// changes.
    pub(crate) fn push(&mut self, payload: &[u8]) -> Result<(), NoMemory>
        ensures ok { OnOk result (self.new ≡ self.old ++ payload.now) }
        ensures err { OnErr result (self.new ≡ self.old) }
    {
        self.bytes.extend_from_slice(payload)
    }

    /// Moves the first of the bytes to the beginning of `into`, as many as it has room for, and
    /// answers how many.
    pub(crate) fn take(&mut self, into: &mut [u8]) -> usize
        ensures count { result ≡ min (length self.old) (length into.old) }
        ensures moved { take result into.new ≡ take result self.old }
        ensures left { self.new ≡ drop result self.old }
    {
        let count = self.bytes.len().min(into.len());
        into[..count].copy_from_slice(&self.bytes[..count]);
        self.bytes.drain(..count);
        count
    }
}
