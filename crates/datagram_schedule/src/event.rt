use crate::payload_view::PayloadView;

/// An event of a schedule: what one of the two ends does, or what the air gives.
#[derive(Drop)]
pub enum Event<'a> {
    /// The sender is offered a payload.
    Offer {
        /// The payload, of 1 to `MAX_PAYLOAD` bytes.
        payload: PayloadView<'a>,
    },
    /// The sender puts a payload that is unacknowledged into the air.
    Send {
        /// Its place among the unacknowledged ones, from 0.
        place: u32,
    },
    /// The receiver puts an acknowledgement into the air.
    Acknowledge,
    /// A datagram in the air arrives; it stays in the air, and may arrive again.
    Arrive {
        /// Its number in the air, from 0.
        gram: u32,
    },
}
