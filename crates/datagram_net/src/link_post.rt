ghost use Rattle.std.specs.Prelude.{◌≡◌, None};

use crate::grams::{FAREWELL, is_data, is_farewell};
use base::FaultCount;
use datagram_link::{Arrival, Post, RECEIVE_ROOM};
use game_io::Failed;
use std::io::ErrorKind;
use std::net::UdpSocket;

/// How often the last datagram of a link is sent: nobody acknowledges it.
const FAREWELLS: u32 = 3;

/// The socket of a link as a post, with the datagram that was fetched last.
#[derive(Drop)]
pub(crate) struct LinkPost {
    socket: UdpSocket,
    room: [u8; RECEIVE_ROOM],
    /// How many bytes of the room the datagram has, until it is received.
    count: Option<usize>,
    faults: FaultCount,
}

/// True where a call of a socket failed only because nothing came in time, or a signal did.
pub(crate) fn is_quiet(kind: ErrorKind) -> bool {
    matches!(
        kind,
        ErrorKind::WouldBlock | ErrorKind::TimedOut | ErrorKind::Interrupted
    )
}

impl LinkPost {
    /// A post over a socket that is connected to the other side and waits no longer than a turn.
    pub(crate) fn new(socket: UdpSocket) -> Self {
        LinkPost {
            socket,
            room: [0; RECEIVE_ROOM],
            count: None,
            faults: FaultCount::new(),
        }
    }

    /// Waits for the next datagram, no longer than a turn. A datagram beyond the room is cut.
    pub(crate) fn fetch(&mut self) -> Result<Arrival, Failed> {
        match self.socket.recv(&mut self.room) {
            Ok(count) => {
                self.count = Some(count.min(RECEIVE_ROOM));
                Ok(Arrival::Got(count))
            }
            Err(error) if is_quiet(error.kind()) => {
                self.count = None;
                Ok(Arrival::Quiet)
            }
            Err(_) => {
                self.faults.raise();
                Err(Failed)
            }
        }
    }

    /// The datagram that was fetched and not received yet, or no bytes.
    fn fetched(&self) -> &[u8] {
        match self.count {
            Some(count) => &self.room[..count.min(RECEIVE_ROOM)],
            None => &[],
        }
    }

    /// True where the datagram that was fetched is a Data.
    pub(crate) fn has_data(&self) -> bool {
        is_data(self.fetched())
    }

    /// True where the datagram that was fetched is the last one of the other side.
    pub(crate) fn has_farewell(&self) -> bool {
        is_farewell(self.fetched())
    }

    /// Tells the other side that the link has ended.
    pub(crate) fn say_farewell(&mut self) {
        for _time in 0..FAREWELLS {
            let _sent = self.send(&FAREWELL);
        }
    }
}

impl Post for LinkPost {
    ghost state = { λ p. record { held = None; faults = p.faults } };

    fn faults(&self) -> u64 {
        self.faults.get()
    }

    fn send(&mut self, gram: &[u8]) -> Result<(), Failed> {
        match self.socket.send(gram) {
            Ok(_) => Ok(()),
            // As a datagram that the network loses.
            Err(error) if error.kind() == ErrorKind::Interrupted => Ok(()),
            Err(_) => {
                self.faults.raise();
                Err(Failed)
            }
        }
    }

    fn receive(&mut self, into: &mut [u8; 266]) -> Result<Arrival, Failed> {
        match self.count.take() {
            None => Ok(Arrival::Quiet),
            Some(count) => {
                let count = count.min(RECEIVE_ROOM);
                into[..count].copy_from_slice(&self.room[..count]);
                Ok(Arrival::Got(count))
            }
        }
    }
}
