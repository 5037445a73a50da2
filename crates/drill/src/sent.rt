use order_packets::Up;

/// A packet that was sent up. No drill sends a greeting.
#[derive(Debug, Drop)]
pub struct Sent {
    /// The client that sent it.
    pub client: u8,
    /// The packet.
    pub packet: Up,
}
