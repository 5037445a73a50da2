use crate::payload::Payload;

/// A datagram of a link.
#[derive(Debug, Drop)]
pub enum Datagram {
    /// A payload with its number.
    Data {
        /// The number of the payload, from 0: any `u32`.
        number: u32,
        /// The payload, of 1 to [`crate::MAX_PAYLOAD`] bytes in each datagram that has bytes.
        payload: Payload,
    },
    /// An acknowledgement: all payloads with a number below this one came.
    Ack {
        /// How many payloads came into order: any `u32`.
        next: u32,
    },
    /// A stranger asks for a link.
    Call,
    /// The answer to a call: where the link is.
    Here {
        /// The port of the link's socket: any `u16`.
        port: u16,
    },
}
