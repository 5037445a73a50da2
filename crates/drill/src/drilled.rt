use crate::peers::Peers;
use frame_core::Sim;
use server_core::Server;

/// The server and the peers as a drill left them, each with a world of its own.
pub struct Drilled<S: Sim> {
    /// The server.
    pub server: Server<S>,
    /// The peers.
    pub peers: Peers<S>,
}

// By hand, so that what drops one needs no proof of how its parts are dropped.
impl<S: Sim> Drop for Drilled<S> {
    fn drop(self) {
        let Self {
            server: _,
            peers: _,
        } = self;
    }
}
