ghost use Rattle.datagram_link.specs.Grams.{IsPayload};

use crate::grams::{data_gram, next_payload};
use crate::link::Link;
use std::alloc::Global;
use std::io;
use std::io::{ErrorKind, Write};
use std::net::UdpSocket;
use std::sync::{Arc, Wait};

/// The half of a link over UDP to which is written. What is written to one that took the place of a
/// link that didn't come is dropped.
#[derive(Drop)]
pub struct UdpWriter<R: Wait + Drop> {
    rt: R,
    alloc: Global,
    link: Option<(Arc<Link, Global>, UdpSocket)>,
}

impl<R: Wait + Drop> UdpWriter<R> {
    /// A half of this link over its socket, if there is one.
    pub(crate) fn new(rt: R, alloc: Global, link: Option<(Arc<Link, Global>, UdpSocket)>) -> Self {
        UdpWriter { rt, alloc, link }
    }

    /// Ends the link, and waits for its last turn.
    pub(crate) fn finish(&self) {
        if let Some((link, _)) = &self.link {
            let mut guard = link.state.lock(&self.rt);
            guard.leave();
            let _state = link
                .changed
                .wait_while(&self.rt, guard, |state| !state.is_over());
        }
    }

    /// Sends a payload of 1 to 258 bytes, once the window has room for it.
    fn send(&self, link: &Link, socket: &UdpSocket, payload: &[u8]) -> io::Result<()>
        requires { IsPayload payload.now }
    {
        let guard = link.state.lock(&self.rt);
        let mut state = link
            .changed
            .wait_while(&self.rt, guard, |state| state.is_full());
        let Some(number) = state.offer(self.alloc, payload) else {
            state.lose();
            return Err(ErrorKind::BrokenPipe.into());
        };
        drop(state);
        let gram = data_gram(self.alloc, number, payload)?;
        match socket.send(&gram) {
            Ok(_) => Ok(()),
            // As a datagram that the network loses: the link's turns send it again.
            Err(error) if error.kind() == ErrorKind::Interrupted => Ok(()),
            Err(error) => Err(error),
        }
    }
}

impl<R: Wait + Drop> Write for UdpWriter<R> {
    fn write(&mut self, buf: &[u8]) -> io::Result<usize> {
        let Some((link, socket)) = &self.link else {
            return Ok(buf.len());
        };
        let payload = next_payload(buf);
        if !payload.is_empty() {
            self.send(link, socket, payload)?;
        }
        Ok(payload.len())
    }

    fn flush(&mut self) -> io::Result<()> {
        Ok(())
    }
}
