//! How a link is opened to the side that listens at an address.
use crate::grams::CALL;
use crate::link_post::is_quiet;
use datagram_link::{Datagram, RECEIVE_ROOM, read_datagram};
use std::alloc::Global;
use std::io::ErrorKind;
use std::net::{Ipv4Addr, Ipv6Addr, Net, SocketAddr, ToSocketAddrs, UdpSocket};
use std::time::{Clock, Duration};
use std::{io, thread};

/// How often it calls at most.
const MAX_CALLS: u32 = 1_200;

/// How long it waits for an answer to a call, in thousandths of a second.
const CALL_MILLIS: u64 = 25;

/// After so many calls without an answer the next address of the name is called.
const CALLS_IN_A_ROW: u32 = 40;

/// How often another port is taken where the system has given the one that is called.
const MAX_PORTS: u32 = 8;

/// What came of a call.
#[derive(Clone, Copy)]
enum Called {
    /// The link is at this port.
    At(u16),
    /// No answer came in time.
    Silent,
    /// Nobody listens.
    Refused,
}

/// Looks the addresses of a name up.
fn addresses_of<R: Net>(rt: &R, alloc: Global, at: &str) -> io::Result<Vec<SocketAddr>> {
    let mut addresses = Vec::new(alloc);
    for address in at.to_socket_addrs(rt)? {
        addresses.push(address)?;
    }
    Ok(addresses)
}

/// A socket that is connected to this address. A port that is the called one itself is given back:
/// the socket would talk to itself, and keep the port from who is to listen there.
fn caller_of<R: Net>(rt: &R, address: SocketAddr) -> io::Result<UdpSocket> {
    let mut socket = any_port(rt, address)?;
    for _port in 0..MAX_PORTS {
        if socket.local_addr()?.port() != address.port() {
            break;
        }
        socket = any_port(rt, address)?;
    }
    socket.connect(address)?;
    socket.set_read_timeout(Some(Duration::from_millis(CALL_MILLIS)))?;
    Ok(socket)
}

/// A socket for addresses as this one, at a port that the system chooses.
fn any_port<R: Net>(rt: &R, like: SocketAddr) -> io::Result<UdpSocket> {
    if like.is_ipv4() {
        UdpSocket::bind(rt, (Ipv4Addr::UNSPECIFIED, 0))
    } else {
        UdpSocket::bind(rt, (Ipv6Addr::UNSPECIFIED, 0))
    }
}

/// Calls once, and waits for the answer.
fn call_once(alloc: Global, socket: &UdpSocket) -> io::Result<Called> {
    match socket.send(&CALL) {
        Ok(_) => {}
        Err(error) if error.kind() == ErrorKind::ConnectionRefused => return Ok(Called::Refused),
        Err(error) if error.kind() == ErrorKind::Interrupted => return Ok(Called::Silent),
        Err(error) => return Err(error),
    }
    let mut room = [0; RECEIVE_ROOM];
    match socket.recv(&mut room) {
        Ok(count) => match read_datagram(alloc, &room[..count]) {
            Ok(Datagram::Here { port }) if port != 0 => Ok(Called::At(port)),
            _ => Ok(Called::Silent),
        },
        Err(error) if is_quiet(error.kind()) => Ok(Called::Silent),
        Err(error) if error.kind() == ErrorKind::ConnectionRefused => Ok(Called::Refused),
        Err(error) => Err(error),
    }
}

/// A socket that is connected to the link of the side that listens at an address.
pub(crate) fn dial_socket<R: Net + Clock>(
    rt: &R,
    alloc: Global,
    at: &str,
) -> io::Result<UdpSocket> {
    let addresses = addresses_of(rt, alloc, at)?;
    let mut address = address_at(&addresses, 0)?;
    let mut socket = caller_of(rt, address)?;
    for call in 1..MAX_CALLS {
        let is_refused = match call_once(alloc, &socket)? {
            Called::At(port) => {
                address.set_port(port);
                socket.connect(address)?;
                return Ok(socket);
            }
            Called::Refused => true,
            Called::Silent => false,
        };
        if is_refused {
            thread::sleep(rt, Duration::from_millis(CALL_MILLIS));
        }
        if addresses.len() > 1 && (is_refused || call % CALLS_IN_A_ROW == 0) {
            address = address_at(&addresses, call as usize)?;
            socket = caller_of(rt, address)?;
        }
    }
    Err(ErrorKind::TimedOut.into())
}

/// One of these addresses, by turns.
fn address_at(addresses: &[SocketAddr], which: usize) -> io::Result<SocketAddr> {
    if addresses.is_empty() {
        return Err(ErrorKind::NotFound.into());
    }
    Ok(addresses[which % addresses.len()])
}
