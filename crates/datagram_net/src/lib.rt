//! Links over UDP.
//!
//! [`Udp`] is a transport whose links carry their bytes in the datagrams of `datagram_link`: a
//! socket and an `End` on each side of a link, and a thread that makes its turns, whatever the two
//! halves do. [`ByAddress`] is a transport over two others, of which addresses choose, so that one
//! program serves both. The links are opaque; what their ends guarantee over every schedule is
//! proved in `datagram_schedule`.
#![tactic(auto)]

mod address;
mod answer;
mod by_address;
mod dial;
mod either_sink;
mod either_source;
mod fate;
mod grams;
mod inbox;
mod limits;
mod link;
mod link_post;
mod link_state;
mod ports;
mod pump;
mod udp;
mod udp_reader;
mod udp_writer;

pub use by_address::ByAddress;
pub use either_sink::EitherSink;
pub use either_source::EitherSource;
pub use limits::{MAX_QUIET, TURN_MILLIS};
pub use udp::Udp;
pub use udp_reader::UdpReader;
pub use udp_writer::UdpWriter;
