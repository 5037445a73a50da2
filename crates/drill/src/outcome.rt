use crate::entering::Entering;
use frame_core::{Leaving, TickAnswer};
use peer_core::SealFault;
use server_core::Reported;

/// The outcome of an event of a drill.
#[derive(Debug, Drop)]
pub enum Outcome {
    /// The peer sealed this frame.
    Sealed(u32),
    /// The peer could not seal.
    NotSealed(SealFault),
    /// No packet of that number was sent.
    NoPacket,
    /// The server got orders.
    Entered {
        /// The client that sent them.
        client: u8,
        /// Their frame.
        frame: u32,
        /// What the client's column answered.
        entering: Entering,
    },
    /// The server got a report.
    Reported {
        /// The client that reported.
        client: u8,
        /// The frame that it reported on.
        frame: u32,
        /// What the board answered.
        reported: Reported,
    },
    /// The server lets a client leave, by its packet or by a drop.
    Leaves {
        /// The client.
        client: u8,
        /// What the client's column answered.
        leaving: Leaving,
    },
    /// The server's column has no entry there.
    NoEntry,
    /// An agreed entry reached the peer, which keeps it.
    Arrived {
        /// The client of the entry.
        client: u8,
        /// Its frame.
        frame: u32,
    },
    /// An agreed entry reached the peer once more.
    Repeated {
        /// The client of the entry.
        client: u8,
        /// Its frame.
        frame: u32,
    },
    /// What the tick of a peer or of the server answered.
    Ticking(TickAnswer),
    /// A report of this frame was sent up.
    ReportSent(u32),
    /// The peer has ticked no frame to report on.
    NoFrame,
    /// A farewell was sent up.
    ByeSent,
}
