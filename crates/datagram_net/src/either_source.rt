use game_io::{Failed, Source};

/// One of two kinds of sources.
#[derive(Drop)]
pub enum EitherSource<A: Source + Drop, B: Source + Drop> {
    /// The one.
    Plain(A),
    /// The other.
    Udp(B),
}

impl<A: Source + Drop, B: Source + Drop> Source for EitherSource<A, B> {
    ghost use Rattle.datagram_net.specs.Either.{source_state};

    ghost state = { λ source. source_state A.state B.state source };

    fn faults(&self) -> u64 {
        match self {
            EitherSource::Plain(source) => source.faults(),
            EitherSource::Udp(source) => source.faults(),
        }
    }

    fn take(&mut self, into: &mut [u8]) -> Result<usize, Failed> {
        match self {
            EitherSource::Plain(source) => source.take(into),
            EitherSource::Udp(source) => source.take(into),
        }
    }
}
