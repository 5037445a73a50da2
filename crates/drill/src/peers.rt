ghost use Rattle.std.specs.Prelude.{◌≡◌, ◌<◌, ◌≤◌, Some, length, slice_get};

use frame_core::Sim;
use game_orders::MAX_CLIENTS;
use peer_core::Peer;
use std::marker::Model;

/// The peers of a match, one for each client by rising number, at most `MAX_CLIENTS`.
pub struct Peers<S: Sim> {
    held: Vec<Peer<S>>,
}

// By hand, so that what drops one needs no proof of how its parts are dropped.
impl<S: Sim> Drop for Peers<S> {
    fn drop(self) {
        let Self { held: _ } = self;
    }
}

impl<S: Sim> Model for Peers<S> {
    ghost use Rattle.std.specs.Prelude.{List, ◌≤◌, length};
    ghost use Rattle.game_orders.specs.declared.limits.TheConstants.{MAX_CLIENTS};
    ghost use Rattle.peer_core.specs.Peer.{PeerState};

    ghost Value = { List (PeerState S) };

    ghost view = { λ peers. peers.held.items };

    ghost invariant = { λ peers. length peers.held.items ≤ MAX_CLIENTS };
}

impl<S: Sim> Peers<S> {
    /// These peers, at most `MAX_CLIENTS`.
    pub(crate) fn from_vec(held: Vec<Peer<S>>) -> Peers<S>
        requires { length held.items ≤ MAX_CLIENTS }
        ensures { result ≡ held.items }
    {
        Peers { held }
    }

    /// The peer of this number, below the clients.
    pub fn get(&self, p: u8) -> &Peer<S>
        requires { p < length self.now }
        ensures { slice_get self.now p ≡ Some result.now }
    {
        &self.held[p as usize]
    }

    /// The peers in order.
    pub(crate) fn as_slice(&self) -> &[Peer<S>]
        ensures value { result.now ≡ self.now }
        ensures most { length result.now ≤ MAX_CLIENTS }
    {
        self.held.as_slice()
    }
}
