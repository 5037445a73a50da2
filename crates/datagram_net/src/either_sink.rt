use game_io::{Failed, Sink};

/// One of two kinds of sinks.
#[derive(Drop)]
pub enum EitherSink<A: Sink + Drop, B: Sink + Drop> {
    /// The one.
    Plain(A),
    /// The other.
    Udp(B),
}

impl<A: Sink + Drop, B: Sink + Drop> Sink for EitherSink<A, B> {
    ghost use Rattle.datagram_net.specs.Either.{sink_state};

    ghost state = { λ sink. sink_state A.state B.state sink };

    fn faults(&self) -> u64 {
        match self {
            EitherSink::Plain(sink) => sink.faults(),
            EitherSink::Udp(sink) => sink.faults(),
        }
    }

    fn put(&mut self, piece: &[u8]) -> Result<(), Failed> {
        match self {
            EitherSink::Plain(sink) => sink.put(piece),
            EitherSink::Udp(sink) => sink.put(piece),
        }
    }
}
