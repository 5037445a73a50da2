use std::net::SocketAddr;

/// What happens in a match over links, for a log.
#[derive(Clone, Copy, Debug, PartialEq, Eq)]
pub enum MatchEvent {
    /// The server listens.
    Listens {
        /// The address, where the net tells it.
        at: Option<SocketAddr>,
    },
    /// The link of a client has come.
    LinkCame {
        /// The client that the link is for.
        client: u8,
        /// The address of its other side, where the net tells it.
        from: Option<SocketAddr>,
    },
    /// The first packet of a client's link greets as it should: the client is in the match.
    Greets {
        /// The client.
        client: u8,
    },
    /// A client's link does not greet.
    GreetsNot {
        /// The client.
        client: u8,
        /// Why.
        why: NoGreeting,
    },
    /// The match waits for a client's entry. This is logged again and again while it waits.
    WaitsFor {
        /// The frame that is not whole yet.
        frame: u32,
        /// The first client whose entry is missing.
        client: u8,
    },
    /// A client has left the match: the frame, the first one without it, is about to be ticked.
    Departs {
        /// The client.
        client: u8,
        /// The frame.
        frame: u32,
    },
    /// A frame was ticked.
    Ticked {
        /// How many frames were ticked so far.
        frames: u32,
    },
    /// The match is over: every client has left.
    Over {
        /// How many frames were ticked in all.
        frames: u32,
    },
}

/// Why a link does not greet.
#[derive(Clone, Copy, Debug, PartialEq, Eq)]
pub enum NoGreeting {
    /// The client is of another version.
    OtherVersion,
    /// The client has other rules or another map.
    OtherRules,
    /// The first packet is no greeting.
    NoHello,
    /// The first bytes are no packet.
    NoPacket,
    /// The bytes end before the first packet is whole.
    Ended,
    /// The link failed before the first packet was whole.
    Lost,
    /// Out of memory.
    NoMemory,
}
