use std::io;
use std::io::{ErrorKind, Read, Write};
use std::net::TcpStream;
use std::sync::Arc;
use std::sync::atomic::{AtomicBool, Ordering};
use std::time::Duration;

/// How long a read or a write waits until it looks whether its link was cut, in thousandths of a
/// second.
const CUT_MILLIS: u64 = 100;

/// The most looks of one read or write: more than any machine makes.
const MAX_LOOKS: u64 = 1 << 40;

/// A half of a link over TCP: a handle of its socket. A link that took the place of one that didn't
/// come has none: its bytes have ended, and what is written to it is dropped.
#[derive(Drop)]
pub struct TcpSocket {
    stream: Option<TcpStream>,
    /// Where this turns true reads and writes fail.
    cut: Option<Arc<AtomicBool>>,
}

impl TcpSocket {
    /// A half over this socket. Where `cut` is given its reads and writes fail once that is true, a
    /// tenth of a second later at the latest.
    pub(crate) fn new(stream: TcpStream, cut: Option<Arc<AtomicBool>>) -> io::Result<Self> {
        if cut.is_some() {
            let pause = Duration::from_millis(CUT_MILLIS);
            stream.set_read_timeout(Some(pause))?;
            stream.set_write_timeout(Some(pause))?;
        }
        Ok(TcpSocket {
            stream: Some(stream),
            cut,
        })
    }

    /// A half of a link that has ended.
    pub(crate) fn ended() -> Self {
        TcpSocket {
            stream: None,
            cut: None,
        }
    }

    /// The socket, where there is one.
    pub(crate) fn stream(&self) -> Option<&TcpStream> {
        self.stream.as_ref()
    }

    /// True once the link was cut.
    fn is_cut(&self) -> bool {
        match &self.cut {
            Some(cut) => cut.load(Ordering::SeqCst),
            None => false,
        }
    }

    /// True where an answer says that nothing could be done in time, and the link may be cut later, or
    /// that the process was stopped meanwhile.
    fn is_to_wait<T: Drop>(&self, answer: &io::Result<T>) -> bool {
        match answer {
            Ok(_) => false,
            Err(error) if error.kind() == ErrorKind::Interrupted => true,
            Err(error) => self.cut.is_some() && error.kind() == ErrorKind::WouldBlock,
        }
    }
}

impl Read for TcpSocket {
    fn read(&mut self, buf: &mut [u8]) -> io::Result<usize> {
        for _look in 0..MAX_LOOKS {
            if self.is_cut() {
                return Err(ErrorKind::ConnectionAborted.into());
            }
            let answer = match &mut self.stream {
                Some(stream) => stream.read(buf),
                None => return Ok(0),
            };
            if !self.is_to_wait(&answer) {
                return answer;
            }
        }
        Err(ErrorKind::TimedOut.into())
    }
}

impl Write for TcpSocket {
    fn write(&mut self, buf: &[u8]) -> io::Result<usize> {
        for _look in 0..MAX_LOOKS {
            if self.is_cut() {
                return Err(ErrorKind::ConnectionAborted.into());
            }
            let answer = match &mut self.stream {
                Some(stream) => stream.write(buf),
                None => return Ok(buf.len()),
            };
            if !self.is_to_wait(&answer) {
                return answer;
            }
        }
        Err(ErrorKind::TimedOut.into())
    }

    fn flush(&mut self) -> io::Result<()> {
        Ok(())
    }
}
