use crate::play_cause::PlayCause;
use order_packets::Down;

/// What comes next down a player's link.
#[derive(Drop)]
pub(crate) enum ComingPacket {
    /// A whole packet, which begins at this place in the bytes.
    Packet { at: u64, packet: Down },
    /// No packet: where it would begin stands a fault, or the bytes end before it is whole, or they
    /// are too many.
    Bad { at: u64, cause: PlayCause },
    /// A failure of the link before the packet is whole.
    Lost,
}
