//! The ports of the links' sockets.
ghost use Rattle.std.specs.Prelude.{◌≡◌, ◌+◌, ◌<◌, ◌≤◌, MatchOption};

use std::io;
use std::io::ErrorKind;
use std::net::{IpAddr, Net, SocketAddr, UdpSocket};

/// The port that comes so many after the first one. None exactly where that is beyond the last.
fn nth_port(first: u16, last: u16, n: u16) -> Option<u16>
    ensures { MatchOption result (last < first + n) (λ port. (port ≡ first + n) × (port ≤ last)) }
{
    let port = first.checked_add(n)?;
    if port > last { None } else { Some(port) }
}

/// A socket at this address, at the first of these ports that is free, or, where no ports are given,
/// at one that the system chooses.
pub(crate) fn bind_within<R: Net>(
    rt: &R,
    ip: IpAddr,
    ports: Option<(u16, u16)>,
) -> io::Result<UdpSocket> {
    let Some((first, last)) = ports else {
        return UdpSocket::bind(rt, SocketAddr::new(ip, 0));
    };
    for n in 0..=u16::MAX {
        let Some(port) = nth_port(first, last, n) else {
            break;
        };
        match UdpSocket::bind(rt, SocketAddr::new(ip, port)) {
            Ok(socket) => return Ok(socket),
            Err(error) if error.kind() == ErrorKind::AddrInUse => {}
            Err(error) => return Err(error),
        }
    }
    Err(ErrorKind::AddrInUse.into())
}
