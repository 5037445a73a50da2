//! A link over datagrams that may be lost, come more than once, and in another order: the payloads
//! of the two ends arrive once each and in order.
//!
//! [`read_datagram`] and [`write_datagram`] have the bytes of the four datagrams:
//!
//! | Datagram | Bytes |
//! |---|---|
//! | `Data` | 1, number in four bytes, length in two, payload of 1 to [`MAX_PAYLOAD`] bytes |
//! | `Ack` | 2, next in four bytes |
//! | `Call` | 3 |
//! | `Here` | 4, port in two bytes |
//!
//! A [`Sender`] keeps what is not acknowledged, at most [`WINDOW`] payloads; a [`Receiver`] brings
//! what arrives into order. An [`End`] has one of each, and makes its turns over a [`Post`]: each
//! takes one datagram, acknowledges a payload, and sends again where none came. What both ends
//! together guarantee over every schedule stands in `datagram_schedule`.
#![tactic(auto)]

mod acked;
mod arrival;
mod arrived;
mod datagram;
mod datagram_view;
mod end;
mod gram_fault;
mod law;
mod limits;
mod mem_post;
mod offered;
mod payload;
mod post;
mod reading;
mod receiver;
mod sender;
mod turn;
mod turn_fault;
mod window;
mod writing;

pub use acked::Acked;
pub use arrival::Arrival;
pub use arrived::Arrived;
pub use datagram::Datagram;
pub use end::End;
pub use gram_fault::GramFault;
pub use law::datagrams_are_read_back;
pub use limits::{MAX_DATAGRAM, MAX_PAYLOAD, MAX_PAYLOADS, RECEIVE_ROOM, WINDOW};
pub use mem_post::MemPost;
pub use offered::Offered;
pub use payload::Payload;
pub use post::Post;
pub use reading::read_datagram;
pub use receiver::Receiver;
pub use sender::Sender;
pub use turn::Turn;
pub use turn_fault::TurnFault;
pub use writing::write_datagram;
