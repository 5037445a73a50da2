use crate::limits::MAX_ANSWERS;
use datagram_link::Datagram;
use std::net::{SocketAddr, UdpSocket};

/// The answer to a call, which is given again as long as nothing comes over the link: it may be
/// lost, and after the last link nobody listens to calls.
#[derive(Drop)]
pub(crate) struct Answer {
    door: UdpSocket,
    caller: SocketAddr,
    gram: Vec<u8>,
}

/// After so many quiet turns the answer is given only now and then.
const OFTEN: u32 = 50;

impl Answer {
    /// An answer by the socket that listens.
    pub(crate) fn new(door: UdpSocket, caller: SocketAddr, gram: Vec<u8>) -> Self {
        Answer { door, caller, gram }
    }

    /// Answers. An answer that can't be sent is as one that is lost.
    pub(crate) fn give(&self) {
        let _sent = self.door.send_to(&self.gram, self.caller);
    }

    /// Answers again after so many quiet turns, where it is time.
    pub(crate) fn give_again(&self, quiet: u32) {
        if quiet < OFTEN || (quiet <= MAX_ANSWERS && quiet % OFTEN == 0) {
            self.give();
        }
    }
}
