/// The outcome of an event.
#[derive(Clone, Copy, Debug, PartialEq, Eq)]
pub enum Outcome {
    /// The payload was taken, and has this number.
    Offered(u32),
    /// The window is full, and the payload was not taken.
    WindowFull,
    /// The datagram has this number in the air.
    Sent(usize),
    /// There are not so many unacknowledged payloads.
    NoneDue,
    /// An acknowledgement is in the air.
    Acknowledged {
        /// Its number in the air.
        gram: usize,
        /// How many payloads came into order.
        next: u32,
    },
    /// The next payload arrived, and so many came into order.
    Delivered(u32),
    /// The payload with this number arrived before one that it follows.
    Kept(u32),
    /// The payload with this number had arrived.
    Repeat(u32),
    /// So many payloads more are acknowledged.
    Freed(u32),
    /// The acknowledgement tells nothing new.
    Old,
    /// No datagram in the air has this number.
    NoDatagram,
}
