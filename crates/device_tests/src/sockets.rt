//! How links over real sockets begin and end.

use crate::devices::listen_somewhere;
use game_io::{MAX_LINKS, Net, Sink, Source, Tcp, TcpNet, TransportNet};
use std::net::{Net as Sockets, SocketAddr, TcpListener, TcpStream};
use std::process::Abort;
use std::sync::Arc;
use std::sync::atomic::{AtomicBool, AtomicU64, Ordering};
use std::test::Fail;
use std::time::{Clock, Duration};
use std::{io, process, thread};

/// The next link that is accepted, where there is one.
fn accept_one<N: Net>(net: &mut N) -> Option<(N::In, N::Out)> {
    if net.links() >= MAX_LINKS {
        return None;
    }
    net.accept().ok()
}

/// A link to an address, where there is one.
fn dial_one<N: Net>(net: &mut N, at: &str) -> Option<(N::In, N::Out)> {
    if net.links() >= MAX_LINKS {
        return None;
    }
    net.dial(at).ok()
}

/// Whether no link is accepted.
fn accepts_none<N: Net>(net: &mut N) -> bool {
    accept_one(net).is_none()
}

/// Whether no link to an address is dialled.
fn dials_none<N: Net>(net: &mut N, at: &str) -> bool {
    dial_one(net, at).is_none()
}

/// The halves of a link at the side that accepts it, and at the one that dials it.
pub(crate) fn link<H: Net, G: Net>(
    host: &mut H,
    guest: &mut G,
    at: &str,
) -> Result<(H::In, H::Out, G::In, G::Out), Fail> {
    let Some((guest_in, guest_out)) = dial_one(guest, at) else {
        return Err(Fail::new("no link is dialled"));
    };
    let Some((host_in, host_out)) = accept_one(host) else {
        return Err(Fail::new("no link is accepted"));
    };
    Ok((host_in, host_out, guest_in, guest_out))
}

/// Hands a link back.
pub(crate) fn hand_back<N: Net>(net: &mut N, i: u32, input: N::In, output: N::Out) {
    if i < net.links() {
        net.take_back(i, input, output);
    }
}

/// How many pieces the side that is sent the end goes on to send.
const PIECES: u32 = 200;

/// Sends on and on, reads what the other side had said and its end, and hands the link back. Answers
/// how many of these calls failed, and what was read.
fn send_and_read<N: Net>(net: &mut N, input: N::In, output: N::Out) -> (u32, [u8; 4]) {
    let (mut input, mut output) = (input, output);
    let mut failed = 0u32;
    for _piece in 0..PIECES {
        if output.put(&[7; 1024]).is_err() {
            failed = failed.saturating_add(1);
        }
    }
    let mut room = [0u8; 4];
    let _said = input.take(&mut room);
    let mut end = [0u8; 4];
    if input.take(&mut end) != Ok(0) {
        failed = failed.saturating_add(1);
    }
    hand_back(net, 0, input, output);
    (failed, room)
}

#[test]
fn what_was_said_last_is_read_by_one_that_goes_on_sending(rt: HostRuntime) -> Result<(), Fail> {
    let mut host = TcpNet::new(&rt);
    let mut guest = TcpNet::new(&rt);
    let first = process::id(rt.process()).wrapping_add(5_000) % 20_000;
    let at = listen_somewhere(rt.alloc(), &mut host, first)?;
    let (host_in, mut host_out, guest_in, guest_out) = link(&mut host, &mut guest, &at)?;
    assert_eq!(rt; host_out.put(b"last"), Ok(()));
    let (read, ()) = thread::join(
        &rt,
        || send_and_read(&mut guest, guest_in, guest_out),
        || hand_back(&mut host, 0, host_in, host_out),
    );
    assert_eq!(rt; read, (0, *b"last"));
    Ok(())
}

/// Waits in vain at a net to which no link has come, and then for one that comes.
fn wait_for_link<N: Net, R: Abort>(
    rt: &R,
    host: &mut N,
    guest: &mut N,
    at: &str,
) -> Result<(N::In, N::Out, N::In, N::Out), Fail> {
    assert!(rt; host.listens_at().is_some() && host.came_from().is_none());
    host.limit_wait(0);
    assert!(rt; accepts_none(host));
    host.limit_wait(60);
    let halves = link(host, guest, at)?;
    assert!(rt; host.came_from().is_some());
    Ok(halves)
}

/// Waits in vain at a net to which a link has come. It gives a link that has ended.
fn wait_for_ended<N: Net, R: Abort>(rt: &R, host: &mut N) -> Result<(N::In, N::Out), Fail> {
    host.limit_wait(0);
    let Some((mut ended_in, mut ended_out)) = accept_one(host) else {
        return Err(Fail::new("no ended link is given"));
    };
    let mut room = [0u8; 4];
    assert_eq!(rt; ended_in.take(&mut room), Ok(0));
    assert_eq!(rt; ended_out.put(b"any"), Ok(()));
    Ok((ended_in, ended_out))
}

/// Stops a net that gave two links and waited in vain. It gives one more, and doesn't wait for it.
fn stop_listening<N: Net, R: Abort>(rt: &R, host: &mut N) {
    host.stop_listening();
    assert!(rt; host.listens_at().is_none());
    // Once it has waited in vain it waits no more.
    host.limit_wait(60);
    assert!(rt; !accepts_none(host));
    assert_eq!(rt; (host.links(), host.faults()), (3, 1));
}

/// Takes links from a net in all these ways, and hands them back.
fn take_in_turn<N: Net, R: Abort>(
    rt: &R,
    host: &mut N,
    guest: &mut N,
    at: &str,
) -> Result<(), Fail> {
    let (host_in, host_out, guest_in, guest_out) = wait_for_link(rt, host, guest, at)?;
    let (ended_in, ended_out) = wait_for_ended(rt, host)?;
    stop_listening(rt, host);
    hand_back(guest, 0, guest_in, guest_out);
    hand_back(host, 0, host_in, host_out);
    hand_back(host, 1, ended_in, ended_out);
    assert_eq!(rt; (host.link_faults(0), host.link_faults(1)), (0, 0));
    Ok(())
}

#[test]
fn a_limited_wait_gives_links_that_have_ended(rt: HostRuntime) -> Result<(), Fail> {
    let mut host = TcpNet::new(&rt);
    let mut guest = TcpNet::new(&rt);
    let first = process::id(rt.process()).wrapping_add(10_000) % 20_000;
    let at = listen_somewhere(rt.alloc(), &mut host, first)?;
    take_in_turn(&rt, &mut host, &mut guest, &at)
}

#[test]
fn a_stop_ends_the_wait(rt: HostRuntime) -> Result<(), Fail> {
    let stop = AtomicBool::new(false);
    let mut host = TransportNet::over(Tcp::until(&rt, &stop));
    let first = process::id(rt.process()).wrapping_add(15_000) % 20_000;
    let _at = listen_somewhere(rt.alloc(), &mut host, first)?;
    let (none, ()) = thread::join(
        &rt,
        || accepts_none(&mut host),
        || stop.store(true, Ordering::SeqCst),
    );
    assert!(rt; none);
    Ok(())
}

#[test]
fn a_cut_ends_a_link_that_waits(rt: HostRuntime) -> Result<(), Fail> {
    let stop = AtomicBool::new(false);
    let cut = Arc::new(rt.alloc(), AtomicBool::new(false))?;
    let mut host = TransportNet::over(Tcp::hosted(&rt, &stop, cut.clone()?));
    let mut guest = TcpNet::new(&rt);
    let first = process::id(rt.process()).wrapping_add(5_000) % 20_000;
    let at = listen_somewhere(rt.alloc(), &mut host, first)?;
    let (mut host_in, mut host_out, guest_in, guest_out) = link(&mut host, &mut guest, &at)?;
    let mut room = [0u8; 4];
    let (failed, ()) = thread::join(
        &rt,
        || host_in.take(&mut room).is_err(),
        || cut.store(true, Ordering::SeqCst),
    );
    assert!(rt; failed && host_out.put(b"any").is_err());
    hand_back(&mut host, 0, host_in, host_out);
    hand_back(&mut guest, 0, guest_in, guest_out);
    assert_eq!(rt; (host.link_faults(0), guest.link_faults(0)), (2, 0));
    Ok(())
}

/// Sockets of which each that is connected is joined to itself, where the system can be brought to
/// do so, and a clock that goes on by ten seconds whenever it is read.
#[derive(Drop)]
struct Joining<'a, R: Sockets<Listener = TcpListener, Stream = TcpStream>> {
    rt: &'a R,
    reads: AtomicU64,
    connects: AtomicU64,
}

impl<'a, R: Sockets<Listener = TcpListener, Stream = TcpStream>> Sockets for Joining<'a, R> {
    type Stream = TcpStream;

    type Listener = TcpListener;

    fn bind(&self, addr: SocketAddr) -> io::Result<TcpListener> {
        self.rt.bind(addr)
    }

    fn connect(&self, addr: SocketAddr) -> io::Result<TcpStream> {
        self.rt.connect(addr)
    }

    fn connect_timeout(&self, addr: SocketAddr, _timeout: Duration) -> io::Result<TcpStream> {
        self.connects.fetch_add(1, Ordering::SeqCst);
        for _try in 0..100_000 {
            if let Ok(stream) = self.rt.connect(addr) {
                return Ok(stream);
            }
        }
        Err(io::Error::from(io::ErrorKind::ConnectionRefused))
    }
}

impl<'a, R: Sockets<Listener = TcpListener, Stream = TcpStream>> Clock for Joining<'a, R> {
    fn monotonic(&self) -> io::Result<Duration> {
        let reads = self.reads.fetch_add(1, Ordering::SeqCst);
        Ok(Duration::from_secs(10 * (reads % 1_000)))
    }

    fn since_1970(&self) -> io::Result<Duration> {
        Err(io::Error::from(io::ErrorKind::Unsupported))
    }
}

#[test]
fn a_dial_is_never_joined_to_itself(rt: HostRuntime) {
    let joining = Joining {
        rt: &rt,
        reads: AtomicU64::new(0),
        connects: AtomicU64::new(0),
    };
    let mut net = TcpNet::new(&joining);
    // A port from which systems dial, where nobody listens.
    assert!(rt; dials_none(&mut net, "127.0.0.1:45678"));
    // Two tries: at 10 and at 20 seconds.
    assert_eq!(rt; joining.connects.load(Ordering::SeqCst), 2);
    assert_eq!(rt; (net.links(), net.faults()), (0, 1));
}

#[test]
fn a_name_that_is_not_resolved_is_dialled_once(rt: HostRuntime) {
    let joining = Joining {
        rt: &rt,
        reads: AtomicU64::new(0),
        connects: AtomicU64::new(0),
    };
    let mut net = TcpNet::new(&joining);
    assert!(rt; dials_none(&mut net, "no address"));
    assert!(rt; dials_none(&mut net, "a name:1"));
    assert_eq!(rt; joining.connects.load(Ordering::SeqCst), 0);
    assert_eq!(rt; joining.reads.load(Ordering::SeqCst), 0);
}
