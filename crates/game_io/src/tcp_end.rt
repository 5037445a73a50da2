//! How a link over TCP ends.
use std::io;
use std::io::{ErrorKind, Read};
use std::net::{Shutdown, TcpStream};
use std::time::{Clock, Duration, Instant};

/// The most bytes that are read after the end of a link.
const MAX_LATE_BYTES: usize = 1 << 20;

/// How many of them are read at once.
const LATE_ROOM: usize = 4096;

/// How many seconds one of these reads waits, and how many after the first of them the last one
/// begins.
const LATE_SECONDS: u64 = 1;

/// Ends a link: what was sent goes out, and then the end. What the other side sends meanwhile is
/// read and dropped, since a socket that is closed with bytes that nobody has read takes back what
/// it sent last. Whatever fails, the link has ended.
pub(crate) fn close_in_time<R: Clock>(rt: &R, stream: &TcpStream) {
    let _closed = shut_and_drain(rt, stream);
}

/// Shuts the sending half and reads to the end, an error, or the limits.
fn shut_and_drain<R: Clock>(rt: &R, stream: &TcpStream) -> io::Result<()> {
    stream.shutdown(Shutdown::Write)?;
    let time = Duration::from_secs(LATE_SECONDS);
    stream.set_read_timeout(Some(time))?;
    let begun = Instant::now(rt)?;
    let mut room = [0u8; LATE_ROOM];
    let mut reader = stream;
    let mut late = 0usize;
    for _read in 0..MAX_LATE_BYTES {
        match reader.read(&mut room) {
            Ok(0) => return Ok(()),
            Ok(count) => late = late.saturating_add(count),
            Err(error) if error.kind() == ErrorKind::Interrupted => {}
            Err(error) => return Err(error),
        }
        if late >= MAX_LATE_BYTES || begun.elapsed(rt)? >= time {
            return Ok(());
        }
    }
    Ok(())
}
