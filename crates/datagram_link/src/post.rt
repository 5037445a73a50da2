ghost use Rattle.std.specs.Prelude.{◌≡◌};

use crate::arrival::Arrival;
use game_io::Failed;

/// Where datagrams come from and go to: a socket, or its like in memory. What is sent may be lost,
/// come more than once, and in another order.
pub trait Post {
    ghost use Rattle.datagram_link.specs.PostState.{PostState, Receives, Sends};

    /// The datagrams that wait and those that were sent, where they are observable, and how often
    /// it has failed, up to the greatest `u64`.
    ghost state: { Self → PostState };

    /// The number of faults so far. It never falls.
    fn faults(&self) -> u64
        ensures { result ≡ (state self.now).faults };

    /// Sends a datagram. `Failed` only where the count of faults rose in this call; then it was not
    /// sent.
    fn send(&mut self, gram: &[u8]) -> Result<(), Failed>
        ensures { Sends (state self.old) (state self.new) gram.now result };

    /// Takes the first waiting datagram away and gives all of it, or its first
    /// [`crate::RECEIVE_ROOM`] bytes where it is longer, at the beginning of `into`. `Quiet` where
    /// none waits.
    ///
    /// `Failed` only where the count of faults rose in this call; then nothing was taken.
    fn receive(&mut self, into: &mut [u8; 266]) -> Result<Arrival, Failed>
        ensures { Receives (state self.old) (state self.new) into.new result };
}
