ghost use Rattle.std.specs.Prelude.{◌≡◌, ◌<◌, length};
ghost use Rattle.game_io.specs.declared.net.TheConstants.{MAX_LINKS};

use crate::failed::Failed;
use crate::sink::Sink;
use crate::source::Source;
use std::net::SocketAddr;

/// The most links that a net gives.
pub const MAX_LINKS: u32 = 16;

/// Room for all of them.
pub(crate) const LINKS_ROOM: usize = MAX_LINKS as usize;

/// Where links come from. A link is two halves: a source of what the other side sends, and a sink
/// for what is sent to it. Links are numbered from 0 as they are given, and a link that is done with
/// is handed back.
pub trait Net {
    ghost use Rattle.game_io.specs.NetState.{NetState, Listens, GivesLink, TakesBack};
    ghost use Rattle.game_io.specs.NetState.{link_faults};

    /// What a link receives.
    type In: Source + Send + Drop;

    /// What a link sends.
    type Out: Sink + Send + Drop;

    /// The bytes of the links that are still to come, where they are observable; the links that
    /// were given, and what each was as it was taken back; and how often the net has failed, up to
    /// the greatest `u64`.
    ghost state: { Self → NetState };

    /// The number of faults of the net itself so far. It never falls.
    fn faults(&self) -> u64
        ensures { result ≡ (state self.now).faults };

    /// The number of links that were given so far.
    fn links(&self) -> u32
        ensures { result ≡ length (state self.now).given };

    /// Begins to listen at an address, so that others can reach it there. `Failed` only where the
    /// count of faults rose in this call.
    fn listen(&mut self, at: &str) -> Result<(), Failed>
        ensures { Listens (state self.old) (state self.new) result };

    /// The next link that another side opens, after fewer than [`MAX_LINKS`] so far. Neither half
    /// has failed yet, and nothing was sent. Of observable links the net gives the first of those
    /// to come, and after the last one a link without bytes. `Failed` only where the count of
    /// faults rose in this call; then no link was given.
    fn accept(&mut self) -> Result<(Self::In, Self::Out), Failed>
        requires { length (state self.old).given < MAX_LINKS }
        ensures { GivesLink Self.In.state Self.Out.state (state self.old) (state self.new) result };

    /// A link to the side that listens at an address, after fewer than [`MAX_LINKS`] so far. It
    /// answers as [`Net::accept`].
    fn dial(&mut self, at: &str) -> Result<(Self::In, Self::Out), Failed>
        requires { length (state self.old).given < MAX_LINKS }
        ensures { GivesLink Self.In.state Self.Out.state (state self.old) (state self.new) result };

    /// Takes back the halves of link `i`, which is below the number of links given so far.
    fn take_back(&mut self, i: u32, input: Self::In, output: Self::Out)
        requires { i < length (state self.old).given }
        ensures { TakesBack i (Self.In.state input) (Self.Out.state output) (state self.old)
            (state self.new) };

    /// How often the two halves of link `i` had failed together as it was taken back, up to the
    /// greatest `u64`, and 0 before.
    fn link_faults(&self, i: u32) -> u64
        ensures { result ≡ link_faults (state self.now).given i };

    /// From now on [`Net::accept`] waits for the next link at most so many seconds. Once it has waited
    /// in vain it fails where no link has come yet; else it gives a link that has ended, then and
    /// whenever it is called again. A net that doesn't wait does nothing.
    fn limit_wait(&mut self, _seconds: u32)
        ensures { state self.new ≡ state self.old }
    {}

    /// No more links are wanted: from now on nobody is let in. A net in memory does nothing.
    fn stop_listening(&mut self)
        ensures { state self.new ≡ state self.old }
    {}

    /// The address at which it listens, where it is a real one.
    fn listens_at(&self) -> Option<SocketAddr> {
        None
    }

    /// The address of the other side of the link that was accepted last, where it is a real one.
    fn came_from(&self) -> Option<SocketAddr> {
        None
    }
}
