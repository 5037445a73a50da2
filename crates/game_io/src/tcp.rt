//! Links over TCP.
ghost use Rattle.std.specs.Prelude.{◌≡◌, None, IfOk, []};
ghost use Rattle.game_io.specs.NetState.{IsNewLink};

use crate::sink::Sink;
use crate::source::Source;
use crate::std_sink::StdSink;
use crate::std_source::StdSource;
use crate::tcp_dial::dial_stream;
use crate::tcp_end::close_in_time;
use crate::tcp_socket::TcpSocket;
use crate::transport::Transport;
use crate::transport_net::TransportNet;
use std::io::ErrorKind;
use std::net::{Net as Sockets, SocketAddr, TcpListener, TcpStream};
use std::sync::Arc;
use std::sync::atomic::{AtomicBool, Ordering};
use std::time::{Clock, Duration, Instant};
use std::{io, thread};

/// How long `accept` pauses between two looks, in thousandths of a second, where its waiting is
/// limited.
const LOOK_MILLIS: u64 = 10;

/// The most looks of one such `accept`: more than fit into the longest wait.
const MAX_LOOKS: u64 = 1 << 40;

/// Links over TCP. An address is a host's name or number, a colon and a port.
#[derive(Drop)]
pub struct Tcp<'a, R: Sockets<Listener = TcpListener, Stream = TcpStream> + Clock> {
    rt: &'a R,
    listener: Option<TcpListener>,
    /// How long it waits for the next link, where that is limited.
    wait: Option<Duration>,
    /// Where this turns true no more links are waited for.
    stop: Option<&'a AtomicBool>,
    /// Where this turns true every link fails.
    cut: Option<Arc<AtomicBool>>,
    /// The address of the other side of the last link that came.
    from: Option<SocketAddr>,
    /// True once it has waited in vain: then no more links are waited for.
    is_over: bool,
}

/// A net whose links are over TCP.
pub type TcpNet<'a, R> = TransportNet<Tcp<'a, R>>;

/// The halves of a link over one socket, of which each packet is sent at once.
type Halves = (StdSource<TcpSocket>, StdSink<TcpSocket>);

/// The halves of a link over this socket, which sends at once what is written to it. Where `cut` is
/// given they fail once that is true.
fn halves(stream: TcpStream, cut: &Option<Arc<AtomicBool>>) -> io::Result<Halves>
    ensures { IfOk result (λ link. IsNewLink None
        (record { left = None; faults = link.0.faults })
        (record { written = None; faults = link.1.faults })) }
{
    stream.set_nodelay(true)?;
    let input = stream.try_clone()?;
    Ok((
        StdSource::new(TcpSocket::new(input, cut.clone()?)?),
        StdSink::new(TcpSocket::new(stream, cut.clone()?)?),
    ))
}

/// The halves of a link that has ended.
fn ended_halves() -> Halves
    ensures { IsNewLink None (record { left = None; faults = result.0.faults })
        (record { written = None; faults = result.1.faults }) }
{
    (
        StdSource::new(TcpSocket::ended()),
        StdSink::new(TcpSocket::ended()),
    )
}

impl<'a, R: Sockets<Listener = TcpListener, Stream = TcpStream> + Clock> Tcp<'a, R> {
    /// The sockets of this runtime.
    pub fn new(rt: &'a R) -> Self {
        Tcp {
            rt,
            listener: None,
            wait: None,
            stop: None,
            cut: None,
            from: None,
            is_over: false,
        }
    }

    /// The same; and once `stop` is true no more links are waited for, as if the limit of the wait
    /// was over.
    pub fn until(rt: &'a R, stop: &'a AtomicBool) -> Self {
        Tcp {
            stop: Some(stop),
            ..Tcp::new(rt)
        }
    }

    /// The same; and once `cut` is true each link fails at its next read or write, or a tenth of a
    /// second later where it waits in one.
    pub fn hosted(rt: &'a R, stop: &'a AtomicBool, cut: Arc<AtomicBool>) -> Self {
        Tcp {
            cut: Some(cut),
            ..Tcp::until(rt, stop)
        }
    }

    /// True once no more links are to be waited for, by the time since `begun`.
    fn has_waited(&self, begun: Instant) -> io::Result<bool> {
        if let Some(stop) = self.stop {
            if stop.load(Ordering::SeqCst) {
                return Ok(true);
            }
        }
        match self.wait {
            Some(wait) => Ok(begun.elapsed(self.rt)? >= wait),
            None => Ok(false),
        }
    }

    /// The next socket that another side opens, with its address, or none once no more links are
    /// to be waited for.
    fn look_for(&self, listener: &TcpListener) -> io::Result<Option<(TcpStream, SocketAddr)>> {
        listener.set_nonblocking(true)?;
        let begun = Instant::now(self.rt)?;
        for _look in 0..MAX_LOOKS {
            match listener.accept() {
                Ok(came) => return Ok(Some(came)),
                Err(error) if error.kind() == ErrorKind::WouldBlock => {}
                Err(error) => return Err(error),
            }
            if self.has_waited(begun)? {
                return Ok(None);
            }
            thread::sleep(self.rt, Duration::from_millis(LOOK_MILLIS));
        }
        Ok(None)
    }

    /// The same, at the address at which it listens; without a limit it waits as long as it takes.
    fn next_stream(&self) -> io::Result<Option<(TcpStream, SocketAddr)>> {
        let Some(listener) = &self.listener else {
            return Err(ErrorKind::NotConnected.into());
        };
        if self.wait.is_none() && self.stop.is_none() {
            return Ok(Some(listener.accept()?));
        }
        self.look_for(listener)
    }
}

impl<'a, R: Sockets<Listener = TcpListener, Stream = TcpStream> + Clock> Transport for Tcp<'a, R> {
    type In = StdSource<TcpSocket>;

    type Out = StdSink<TcpSocket>;

    fn listen(&mut self, at: &str) -> io::Result<()> {
        self.listener = Some(TcpListener::bind(self.rt, at)?);
        Ok(())
    }

    fn accept(&mut self) -> io::Result<Halves> {
        if self.is_over {
            return Ok(ended_halves());
        }
        if let Some((stream, from)) = self.next_stream()? {
            self.from = Some(from);
            return halves(stream, &self.cut);
        }
        if self.from.is_none() {
            return Err(ErrorKind::TimedOut.into());
        }
        self.is_over = true;
        Ok(ended_halves())
    }

    fn dial(&mut self, at: &str) -> io::Result<Halves> {
        halves(dial_stream(self.rt, at)?, &self.cut)
    }

    fn end(&mut self, input: StdSource<TcpSocket>, output: StdSink<TcpSocket>) -> u64 {
        let faults = input.faults().saturating_add(output.faults());
        if let Some(stream) = output.writer().stream() {
            close_in_time(self.rt, stream);
        }
        faults
    }

    fn limit_wait(&mut self, seconds: u32) {
        self.wait = Some(Duration::from_secs(u64::from(seconds)));
    }

    fn stop_listening(&mut self) {
        self.listener = None;
    }

    fn listens_at(&self) -> Option<SocketAddr> {
        match &self.listener {
            Some(listener) => listener.local_addr().ok(),
            None => None,
        }
    }

    fn came_from(&self) -> Option<SocketAddr> {
        if self.is_over { None } else { self.from }
    }
}

impl<'a, R: Sockets<Listener = TcpListener, Stream = TcpStream> + Clock> TransportNet<Tcp<'a, R>> {
    /// The sockets of this runtime, with no link and no fault yet.
    pub fn new(rt: &'a R) -> Self
        ensures given { result.given.items ≡ [] }
        ensures faults { result.faults ≡ 0 }
    {
        TransportNet::over(Tcp::new(rt))
    }
}
