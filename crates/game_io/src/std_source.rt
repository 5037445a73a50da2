ghost use Rattle.std.specs.Io.{ReadsAtMost};
ghost use Rattle.std.specs.Prelude.{◌≡◌, None};

use crate::failed::Failed;
use crate::source::Source;
use base::FaultCount;
use std::io;
use std::io::{ErrorKind, Read};

/// How often a read is made at most: more often than any process is stopped.
const MAX_READS: u64 = 1 << 40;

/// A source over any reader of std, such as a socket or the console. Its bytes are opaque.
#[derive(Drop)]
pub struct StdSource<R: Read + Drop> {
    reader: R,
    faults: FaultCount,
}

impl<R: Read + Drop> StdSource<R> {
    /// A source over this reader, with no fault yet.
    pub fn new(reader: R) -> Self
        ensures reader { result.reader ≡ reader }
        ensures faults { result.faults ≡ 0 }
    {
        StdSource {
            reader,
            faults: FaultCount::new(),
        }
    }

    /// The reader.
    pub fn reader(&self) -> &R
        ensures { result.now ≡ self.now.reader }
    {
        &self.reader
    }
}

/// True where a read ended without bytes only because the process was stopped meanwhile.
fn is_interrupted<T: Drop>(answer: &io::Result<T>) -> bool {
    match answer {
        Ok(_) => false,
        Err(error) => error.kind() == ErrorKind::Interrupted,
    }
}

/// Reads once, and again where that was interrupted.
fn read_through<R: Read + Drop>(reader: &mut R, into: &mut [u8]) -> io::Result<usize>
    ensures { ReadsAtMost result into.new }
{
    for _read in 0..MAX_READS {
        let answer = reader.read(into);
        if !is_interrupted(&answer) {
            return answer;
        }
    }
    Err(ErrorKind::Interrupted.into())
}

impl<R: Read + Drop> Source for StdSource<R> {
    ghost state = { λ s. record { left = None; faults = s.faults } };

    fn faults(&self) -> u64 {
        self.faults.get()
    }

    fn take(&mut self, into: &mut [u8]) -> Result<usize, Failed> {
        match read_through(&mut self.reader, into) {
            Ok(count) => Ok(count),
            Err(_) => {
                self.faults.raise();
                Err(Failed)
            }
        }
    }
}
