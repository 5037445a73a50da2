use crate::address::udp_part;
use crate::either_sink::EitherSink;
use crate::either_source::EitherSource;
use game_io::{Sink, Source, Transport};
use std::io;
use std::net::SocketAddr;

/// Two transports, of which addresses choose: those that begin with `udp:` are of the second one,
/// without that, all others of the first.
#[derive(Drop)]
pub struct ByAddress<T: Transport + Drop, U: Transport + Drop> {
    plain: T,
    udp: U,
    /// True where the second one listens.
    is_udp: bool,
}

impl<T: Transport + Drop, U: Transport + Drop> ByAddress<T, U> {
    /// These two transports, of which none listens.
    pub fn new(plain: T, udp: U) -> Self {
        ByAddress {
            plain,
            udp,
            is_udp: false,
        }
    }
}

impl<T: Transport + Drop, U: Transport + Drop> Transport for ByAddress<T, U> {
    type In = EitherSource<T::In, U::In>;

    type Out = EitherSink<T::Out, U::Out>;

    fn listen(&mut self, at: &str) -> io::Result<()> {
        match udp_part(at) {
            Some(at) => {
                self.is_udp = true;
                self.udp.listen(at)
            }
            None => {
                self.is_udp = false;
                self.plain.listen(at)
            }
        }
    }

    fn accept(&mut self) -> io::Result<(Self::In, Self::Out)> {
        if self.is_udp {
            let (input, output) = self.udp.accept()?;
            return Ok((EitherSource::Udp(input), EitherSink::Udp(output)));
        }
        let (input, output) = self.plain.accept()?;
        Ok((EitherSource::Plain(input), EitherSink::Plain(output)))
    }

    fn dial(&mut self, at: &str) -> io::Result<(Self::In, Self::Out)> {
        match udp_part(at) {
            Some(at) => {
                let (input, output) = self.udp.dial(at)?;
                Ok((EitherSource::Udp(input), EitherSink::Udp(output)))
            }
            None => {
                let (input, output) = self.plain.dial(at)?;
                Ok((EitherSource::Plain(input), EitherSink::Plain(output)))
            }
        }
    }

    fn end(&mut self, input: Self::In, output: Self::Out) -> u64 {
        match (input, output) {
            (EitherSource::Plain(input), EitherSink::Plain(output)) => {
                self.plain.end(input, output)
            }
            (EitherSource::Udp(input), EitherSink::Udp(output)) => self.udp.end(input, output),
            (input, output) => input.faults().saturating_add(output.faults()),
        }
    }

    fn limit_wait(&mut self, seconds: u32) {
        self.plain.limit_wait(seconds);
        self.udp.limit_wait(seconds);
    }

    fn stop_listening(&mut self) {
        self.plain.stop_listening();
        self.udp.stop_listening();
    }

    fn listens_at(&self) -> Option<SocketAddr> {
        if self.is_udp {
            return self.udp.listens_at();
        }
        self.plain.listens_at()
    }

    fn came_from(&self) -> Option<SocketAddr> {
        if self.is_udp {
            return self.udp.came_from();
        }
        self.plain.came_from()
    }
}
