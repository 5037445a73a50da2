ghost use Rattle.std.specs.Prelude.{◌≡◌, ◌<◌, ◌++◌, ◌∷◌, [], length, None, ◌≤◌, IfOk, OnOk, OnErr};
ghost use Rattle.base.specs.Cause.{Increased};
ghost use Rattle.game_io.specs.declared.net.TheConstants.{MAX_LINKS};
ghost use Rattle.game_io.specs.NetState.{IsNewLink};

use crate::failed::Failed;
use crate::net::{LINKS_ROOM, Net};
use crate::opaque_link::OpaqueLink;
use crate::sink::Sink;
use crate::source::Source;
use crate::transport::Transport;
use arrayvec::ArrayVec;
use base::FaultCount;
use std::io;
use std::net::SocketAddr;

/// The links of a transport, which are opaque.
#[derive(Drop)]
pub struct TransportNet<T: Transport + Drop> {
    transport: T,
    given: ArrayVec<Option<OpaqueLink>, LINKS_ROOM>,
    faults: FaultCount,
}

impl<T: Transport + Drop> TransportNet<T> {
    /// A net over this transport, with no link and no fault yet.
    pub fn over(transport: T) -> Self
        ensures given { result.given.items ≡ [] }
        ensures faults { result.faults ≡ 0 }
    {
        TransportNet {
            transport,
            given: ArrayVec::new(),
            faults: FaultCount::new(),
        }
    }
}

/// Numbers the link that a call of a transport made, or counts its fault.
fn give<I: Source + Drop, O: Sink + Drop>(
    given: &mut ArrayVec<Option<OpaqueLink>, LINKS_ROOM>,
    faults: &mut FaultCount,
    link: io::Result<(I, O)>,
) -> Result<(I, O), Failed>
    requires room { length given.old.items < MAX_LINKS }
    requires new { IfOk link (λ link. IsNewLink None (I.state link.0) (O.state link.1)) }
    ensures link { IfOk result (λ link. IsNewLink None (I.state link.0) (O.state link.1)) }
    ensures given { OnOk result (given.new.items ≡ given.old.items ++ None ∷ []) }
    ensures none_given { OnErr result (given.new.items ≡ given.old.items) }
    ensures later { faults.old ≤ faults.new }
    ensures failed { OnErr result (Increased faults.old faults.new) }
{
    match link {
        Ok(link) => {
            given.push(None);
            Ok(link)
        }
        Err(_) => {
            faults.raise();
            Err(Failed)
        }
    }
}

impl<T: Transport + Drop> Net for TransportNet<T> {
    type In = T::In;

    type Out = T::Out;

    ghost state = { λ n. record { coming = None; given = n.given.items; faults = n.faults } };

    fn faults(&self) -> u64 {
        self.faults.get()
    }

    fn links(&self) -> u32 {
        self.given.len() as u32
    }

    fn listen(&mut self, at: &str) -> Result<(), Failed> {
        match self.transport.listen(at) {
            Ok(()) => Ok(()),
            Err(_) => {
                self.faults.raise();
                Err(Failed)
            }
        }
    }

    fn accept(&mut self) -> Result<(T::In, T::Out), Failed> {
        let link = self.transport.accept();
        give(&mut self.given, &mut self.faults, link)
    }

    fn dial(&mut self, at: &str) -> Result<(T::In, T::Out), Failed> {
        let link = self.transport.dial(at);
        give(&mut self.given, &mut self.faults, link)
    }

    fn take_back(&mut self, i: u32, input: T::In, output: T::Out) {
        let faults = self.transport.end(input, output);
        self.given.as_mut_slice()[i as usize] = Some(OpaqueLink { faults });
    }

    fn link_faults(&self, i: u32) -> u64 {
        match self.given.as_slice().get(i as usize) {
            Some(Some(link)) => link.faults,
            _ => 0,
        }
    }

    fn limit_wait(&mut self, seconds: u32) {
        self.transport.limit_wait(seconds);
    }

    fn stop_listening(&mut self) {
        self.transport.stop_listening();
    }

    fn listens_at(&self) -> Option<SocketAddr> {
        self.transport.listens_at()
    }

    fn came_from(&self) -> Option<SocketAddr> {
        self.transport.came_from()
    }
}
