ghost use Rattle.std.specs.Prelude.{◌≡◌, None, IfOk};

use crate::sink::Sink;
use crate::source::Source;
use std::io;
use std::net::SocketAddr;

/// How real links are made and ended, such as TCP: the raw calls of a [`TransportNet`], which
/// numbers the links and counts the faults. The links are opaque.
///
/// [`TransportNet`]: crate::TransportNet
pub trait Transport {
    ghost use Rattle.game_io.specs.NetState.{IsNewLink, taken_back};

    /// What a link receives.
    type In: Source + Send + Drop;

    /// What a link sends.
    type Out: Sink + Send + Drop;

    /// Begins to listen at an address.
    fn listen(&mut self, at: &str) -> io::Result<()>;

    /// The next link that another side opens. Neither half has failed yet.
    fn accept(&mut self) -> io::Result<(Self::In, Self::Out)>
        ensures { IfOk result (λ link. IsNewLink None (Self.In.state link.0)
            (Self.Out.state link.1)) };

    /// A link to the side that listens at an address. Neither half has failed yet.
    fn dial(&mut self, at: &str) -> io::Result<(Self::In, Self::Out)>
        ensures { IfOk result (λ link. IsNewLink None (Self.In.state link.0)
            (Self.Out.state link.1)) };

    /// Ends a link in such a way that the other side can still read what was sent last. It answers
    /// how often both halves had failed together, up to the greatest `u64`.
    fn end(&mut self, input: Self::In, output: Self::Out) -> u64
        ensures { taken_back (Self.In.state input) (Self.Out.state output)
            ≡ record { left = None; written = None; faults = result } };

    /// From now on [`Transport::accept`] waits for the next link at most so many seconds. Once it has
    /// waited in vain it is an error where no link has come yet; else it gives a link that has ended,
    /// then and whenever it is called again.
    fn limit_wait(&mut self, seconds: u32);

    /// Stops listening: no more links are wanted.
    fn stop_listening(&mut self);

    /// The address at which it listens.
    fn listens_at(&self) -> Option<SocketAddr>;

    /// The address of the other side of the link that was accepted last.
    fn came_from(&self) -> Option<SocketAddr>;
}
