//! Links over UDP.
ghost use Rattle.std.specs.Prelude.{◌≡◌, None, IfOk};
ghost use Rattle.game_io.specs.NetState.{IsNewLink};

use crate::answer::Answer;
use crate::dial::dial_socket;
use crate::grams::CALL;
use crate::limits::TURN_MILLIS;
use crate::link::Link;
use crate::link_post::{LinkPost, is_quiet};
use crate::link_state::LinkState;
use crate::ports::bind_within;
use crate::pump::Pump;
use crate::udp_reader::UdpReader;
use crate::udp_writer::UdpWriter;
use datagram_link::{Datagram, RECEIVE_ROOM, write_datagram};
use game_io::{Sink, Source, StdSink, StdSource, Transport};
use std::alloc::Global;
use std::io::ErrorKind;
use std::net::{Net as Sockets, SocketAddr, UdpSocket};
use std::sync::atomic::{AtomicBool, Ordering};
use std::sync::{Arc, Wait};
use std::thread::Threads;
use std::time::{Clock, Duration, Instant};
use std::{io, thread};

/// How long `accept` waits for a call between two looks at the time, in thousandths of a second.
const LOOK_MILLIS: u64 = 10;

/// The most looks of one `accept`: more than fit into the longest wait.
const MAX_LOOKS: u64 = 1 << 40;

/// Who has called, and the port of the link's socket.
#[derive(Clone, Copy)]
struct Caller {
    from: SocketAddr,
    port: u16,
}

/// Links over UDP. An address is a host's name or number, a colon and a port.
///
/// A link is a socket of its own on each side, and a thread that makes its turns. Who dials calls
/// the port at which the other side listens, and is told the port of the link's socket there.
#[derive(Drop)]
pub struct Udp<'a, R: Sockets + Clock + Threads + Wait + Copy + Drop> {
    rt: &'a R,
    alloc: Global,
    /// The ports of the sockets of links that are accepted.
    ports: Option<(u16, u16)>,
    /// Where this turns true no more links are waited for.
    stop: &'a AtomicBool,
    /// Where this turns true every link is lost.
    cut: Arc<AtomicBool, Global>,
    door: Option<UdpSocket>,
    callers: Vec<Caller>,
    /// How long it waits for the next link, where that is limited.
    wait: Option<Duration>,
    /// The address of the other side of the link that was accepted last.
    from: Option<SocketAddr>,
    /// True once it has waited in vain: then no more links are waited for.
    is_over: bool,
}

/// The halves of a link.
type Halves<R> = (StdSource<UdpReader<R>>, StdSink<UdpWriter<R>>);

/// The halves of a link that has ended.
fn ended_halves<R: Wait + Drop + Copy>(rt: R, alloc: Global) -> Halves<R>
    ensures { IsNewLink None (record { left = None; faults = result.0.faults })
        (record { written = None; faults = result.1.faults }) }
{
    (
        StdSource::new(UdpReader::new(rt, None)),
        StdSink::new(UdpWriter::new(rt, alloc, None)),
    )
}

/// Waits for a call, up to a look, and answers who called.
fn hear_call(door: &UdpSocket) -> io::Result<Option<SocketAddr>> {
    let mut room = [0; RECEIVE_ROOM];
    match door.recv_from(&mut room) {
        Ok((count, from)) if &room[..count] == CALL.as_slice() => Ok(Some(from)),
        Ok(_) => Ok(None),
        Err(error) if is_quiet(error.kind()) => Ok(None),
        Err(error) => Err(error),
    }
}

impl<'a, R: Sockets + Clock + Threads + Wait + Copy + Drop> Udp<'a, R> {
    /// The sockets of this runtime, of which those of accepted links are at these ports, both
    /// included, where they are given. Once `stop` is true no more links are waited for, as if the
    /// limit of the wait was over; once `cut` is, each link is lost, within a tenth of a second.
    pub fn new(
        rt: &'a R,
        alloc: Global,
        ports: Option<(u16, u16)>,
        stop: &'a AtomicBool,
        cut: Arc<AtomicBool, Global>,
    ) -> Self {
        Udp {
            rt,
            alloc,
            ports,
            stop,
            cut,
            door: None,
            callers: Vec::new(alloc),
            wait: None,
            from: None,
            is_over: false,
        }
    }

    /// True once no more links are to be waited for, by the time since `begun`.
    fn has_waited(&self, begun: Instant) -> io::Result<bool> {
        if self.stop.load(Ordering::SeqCst) {
            return Ok(true);
        }
        match self.wait {
            Some(wait) => Ok(begun.elapsed(self.rt)? >= wait),
            None => Ok(false),
        }
    }

    /// The bytes by which a call is told the port of its link.
    fn here(&self, port: u16) -> io::Result<Vec<u8>> {
        Ok(write_datagram(self.alloc, &Datagram::Here { port })?)
    }

    /// True where who called is known. Then it is answered again.
    fn answers_again(&self, door: &UdpSocket, from: SocketAddr) -> io::Result<bool> {
        for caller in self.callers.as_slice() {
            if caller.from == from {
                let _sent = door.send_to(&self.here(caller.port)?, from);
                return Ok(true);
            }
        }
        Ok(false)
    }

    /// The next stranger that calls, or none once no more links are to be waited for.
    fn next_caller(&self) -> io::Result<Option<(&UdpSocket, SocketAddr)>> {
        let Some(door) = &self.door else {
            return Err(ErrorKind::NotConnected.into());
        };
        let begun = Instant::now(self.rt)?;
        for _look in 0..MAX_LOOKS {
            if let Some(from) = hear_call(door)? {
                if !self.answers_again(door, from)? {
                    return Ok(Some((door, from)));
                }
            }
            if self.has_waited(begun)? {
                return Ok(None);
            }
        }
        Ok(None)
    }

    /// The halves of a link over a socket that is connected to the other side, which makes its turns
    /// from now on.
    fn open(&self, socket: UdpSocket, answer: Option<Answer>) -> io::Result<Halves<R>>
        ensures { IfOk result (λ link. IsNewLink None
            (record { left = None; faults = link.0.faults })
            (record { written = None; faults = link.1.faults })) }
    {
        socket.set_read_timeout(Some(Duration::from_millis(TURN_MILLIS)))?;
        let post = LinkPost::new(socket.try_clone()?);
        let link = Arc::new(self.alloc, Link::new(LinkState::create(self.alloc)?))?;
        let input = Some(Arc::try_clone(&link)?);
        let output = Some((Arc::try_clone(&link)?, socket));
        let cut = Arc::try_clone(&self.cut)?;
        let mut pump = Pump::new(self.alloc, link, post, answer, cut);
        let _runs_on = thread::spawn(self.rt, move || pump.run())?;
        let rt = *self.rt;
        Ok((
            StdSource::new(UdpReader::new(rt, input)),
            StdSink::new(UdpWriter::new(rt, self.alloc, output)),
        ))
    }

    /// Opens the link of a stranger that called, and tells it where.
    fn answer(&self, door: &UdpSocket, from: SocketAddr) -> io::Result<(Halves<R>, Caller)>
        ensures { IfOk result (λ opened. IsNewLink None
            (record { left = None; faults = opened.0.0.faults })
            (record { written = None; faults = opened.0.1.faults })) }
    {
        let socket = bind_within(self.rt, door.local_addr()?.ip(), self.ports)?;
        socket.connect(from)?;
        let port = socket.local_addr()?.port();
        let answer = Answer::new(door.try_clone()?, from, self.here(port)?);
        answer.give();
        let halves = self.open(socket, Some(answer))?;
        Ok((halves, Caller { from, port }))
    }
}

impl<'a, R: Sockets + Clock + Threads + Wait + Copy + Drop + Send> Transport for Udp<'a, R> {
    type In = StdSource<UdpReader<R>>;

    type Out = StdSink<UdpWriter<R>>;

    fn listen(&mut self, at: &str) -> io::Result<()> {
        let door = UdpSocket::bind(self.rt, at)?;
        door.set_read_timeout(Some(Duration::from_millis(LOOK_MILLIS)))?;
        self.door = Some(door);
        Ok(())
    }

    fn accept(&mut self) -> io::Result<Halves<R>> {
        if self.is_over {
            return Ok(ended_halves(*self.rt, self.alloc));
        }
        if let Some((door, from)) = self.next_caller()? {
            let (halves, caller) = self.answer(door, from)?;
            self.from = Some(from);
            self.callers.push(caller)?;
            return Ok(halves);
        }
        if self.from.is_none() {
            return Err(ErrorKind::TimedOut.into());
        }
        self.is_over = true;
        Ok(ended_halves(*self.rt, self.alloc))
    }

    fn dial(&mut self, at: &str) -> io::Result<Halves<R>> {
        let socket = dial_socket(self.rt, self.alloc, at)?;
        self.open(socket, None)
    }

    fn end(&mut self, input: StdSource<UdpReader<R>>, output: StdSink<UdpWriter<R>>) -> u64 {
        let faults = input.faults().saturating_add(output.faults());
        output.writer().finish();
        faults
    }

    fn limit_wait(&mut self, seconds: u32) {
        self.wait = Some(Duration::from_secs(u64::from(seconds)));
    }

    fn stop_listening(&mut self) {
        self.door = None;
    }

    fn listens_at(&self) -> Option<SocketAddr> {
        match &self.door {
            Some(door) => door.local_addr().ok(),
            None => None,
        }
    }

    fn came_from(&self) -> Option<SocketAddr> {
        if self.is_over {
            return None;
        }
        self.from
    }
}
