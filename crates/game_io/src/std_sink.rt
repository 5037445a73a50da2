ghost use Rattle.std.specs.Prelude.{◌≡◌, None};

use crate::failed::Failed;
use crate::sink::Sink;
use base::FaultCount;
use std::io;
use std::io::Write;

/// A sink over any writer of std. Each `put` writes its whole piece and flushes, so nothing that
/// was answered `Ok` waits in a buffer. Its bytes are opaque.
#[derive(Drop)]
pub struct StdSink<W: Write + Drop> {
    writer: W,
    faults: FaultCount,
}

/// Writes the whole piece, and hands on what waits in the writer.
fn write_flushed<W: Write>(writer: &mut W, piece: &[u8]) -> io::Result<()> {
    writer.write_all(piece)?;
    writer.flush()
}

impl<W: Write + Drop> StdSink<W> {
    /// A sink over this writer, with no fault yet.
    pub fn new(writer: W) -> Self
        ensures writer { result.writer ≡ writer }
        ensures faults { result.faults ≡ 0 }
    {
        StdSink {
            writer,
            faults: FaultCount::new(),
        }
    }

    /// The writer.
    pub fn writer(&self) -> &W
        ensures { result.now ≡ self.now.writer }
    {
        &self.writer
    }
}

impl<W: Write + Drop> Sink for StdSink<W> {
    ghost state = { λ s. record { written = None; faults = s.faults } };

    fn faults(&self) -> u64 {
        self.faults.get()
    }

    fn put(&mut self, piece: &[u8]) -> Result<(), Failed> {
        match write_flushed(&mut self.writer, piece) {
            Ok(()) => Ok(()),
            Err(_) => {
                self.faults.raise();
                Err(Failed)
            }
        }
    }
}
