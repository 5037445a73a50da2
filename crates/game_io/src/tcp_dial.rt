//! How a socket is connected to the side that listens at an address.
use std::io::ErrorKind;
use std::net::{Ipv4Addr, Net as Sockets, SocketAddr, TcpStream, ToSocketAddrs};
use std::time::{Clock, Duration, Instant};
use std::{io, thread};

/// How often it is tried at most.
const MAX_DIALS: u32 = 200_000;

/// How many seconds it is tried at most.
const DIAL_SECONDS: u64 = 30;

/// The pause after the first try, in thousandths of a second. Each next one is twice as long.
const FIRST_PAUSE: u64 = 1;

/// The longest pause, in thousandths of a second.
const LONGEST_PAUSE: u64 = 50;

/// The most addresses of one name that are tried.
const MAX_ADDRESSES: u32 = 32;

/// The addresses of a name.
#[derive(Drop)]
struct Addresses {
    found: [SocketAddr; MAX_ADDRESSES as usize],
    count: u32,
}

impl Addresses {
    /// All that were found.
    fn all(&self) -> &[SocketAddr] {
        &self.found[..self.count.min(MAX_ADDRESSES) as usize]
    }

    /// The part of this time that each of them has.
    fn share_of(&self, time: Duration) -> Duration {
        time / self.count.max(1)
    }
}

/// Looks the addresses of a name up.
fn addresses_of<R: Sockets>(rt: &R, at: &str) -> io::Result<Addresses> {
    let mut addresses = Addresses {
        found: [SocketAddr::from((Ipv4Addr::UNSPECIFIED, 0)); MAX_ADDRESSES as usize],
        count: 0,
    };
    for address in at.to_socket_addrs(rt)? {
        if addresses.count < MAX_ADDRESSES {
            addresses.found[addresses.count as usize] = address;
            addresses.count += 1;
        }
    }
    Ok(addresses)
}

/// A socket to this address. One that the system joined to itself, since nobody listens there and
/// the port was free, is dropped.
fn connect<R: Sockets<Stream = TcpStream>>(
    rt: &R,
    address: &SocketAddr,
    time: Duration,
) -> io::Result<TcpStream> {
    let stream = TcpStream::connect_timeout(rt, address, time)?;
    if stream.local_addr()? == stream.peer_addr()? {
        return Err(ErrorKind::ConnectionRefused.into());
    }
    Ok(stream)
}

/// A socket to the first of these addresses that answers, each within this time.
fn connect_any<R: Sockets<Stream = TcpStream>>(
    rt: &R,
    addresses: &[SocketAddr],
    time: Duration,
) -> io::Result<TcpStream> {
    let mut last = io::Error::from(ErrorKind::InvalidInput);
    for address in addresses {
        match connect(rt, address, time) {
            Ok(stream) => return Ok(stream),
            Err(error) => last = error,
        }
    }
    Err(last)
}

/// A socket to this address, with pauses between the tries. A name that can't be resolved is an error
/// at once; any other error is the last one, once the tries or the time are over.
pub(crate) fn dial_stream<R: Sockets<Stream = TcpStream> + Clock>(
    rt: &R,
    at: &str,
) -> io::Result<TcpStream> {
    let addresses = addresses_of(rt, at)?;
    let begun = Instant::now(rt)?;
    let mut pause = FIRST_PAUSE;
    let mut last = io::Error::from(ErrorKind::TimedOut);
    for _try in 0..MAX_DIALS {
        let left = Duration::from_secs(DIAL_SECONDS).saturating_sub(begun.elapsed(rt)?);
        if left.is_zero() {
            return Err(last);
        }
        match connect_any(rt, addresses.all(), addresses.share_of(left)) {
            Ok(stream) => return Ok(stream),
            Err(error) => last = error,
        }
        thread::sleep(rt, Duration::from_millis(pause));
        pause = pause.saturating_mul(2).min(LONGEST_PAUSE);
    }
    Err(last)
}
