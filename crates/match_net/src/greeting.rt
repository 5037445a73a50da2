use order_packets::FeedFault;

/// What the server makes of the first packet of a link.
#[derive(Clone, Copy, Debug, PartialEq, Eq)]
pub enum Greeting {
    /// The client greets with this version and these rules: it is in the match.
    Welcome,
    /// The packet is whole, and the client is not in the match.
    Refuse {
        /// Why: [`order_packets::OTHER_VERSION`], [`order_packets::OTHER_RULES`] or
        /// [`order_packets::NO_HELLO`].
        code: u8,
    },
    /// This fault stands in the packet's place.
    Fault(FeedFault),
    /// The bytes end before the packet is whole.
    Ended,
    /// The link failed before the packet was whole.
    Lost,
}
