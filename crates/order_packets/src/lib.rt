//! Packets between the clients of a match and its server, and the streams that carry them.
//!
//! [`Up`] is what a client sends: its greeting, the orders that it sealed for a frame, a report of
//! its world's hash, and its farewell. Two are equal by `==` exactly where they are the same.
//! [`Down`] is what the server sends: that the client is in the match or not, and what each client
//! did for a frame. Packets are plain values.
//!
//! Each packet has one spelling, which [`write_up`] and [`write_down`] append: the length of its
//! payload in two bytes, at most [`MAX_PAYLOAD`], and the payload, a tag and the packet's fields
//! (`specs/PacketBytes.antt`). No spelling begins another. A [`Feeder`] takes a stream in pieces
//! and gives the packets whose spellings stand in it one after another, then that the stream is
//! open or the fault in a packet's place, however the stream was cut. [`first_packet`] reads the
//! packet that bytes begin with, where they are held already.
#![tactic(auto)]

mod down;
mod down_reading;
mod feed_fault;
mod feeder;
mod first_reading;
mod fits;
mod law;
mod limits;
mod packet;
mod up;
mod up_reading;
mod writing;

pub use down::Down;
pub use feed_fault::FeedFault;
pub use feeder::Feeder;
pub use first_reading::first_packet;
pub use fits::{down_fits, up_fits};
pub use law::{
    a_fault_stands_in_its_place, a_stream_is_read_one_way, down_is_read_back,
    no_down_begins_another, no_up_begins_another, up_is_read_back,
};
pub use limits::{MAX_PAYLOAD, NO_HELLO, OTHER_RULES, OTHER_VERSION, VERSION};
pub use packet::Packet;
pub use up::Up;
pub use writing::{write_down, write_up};

/// The packets that a server gets from a client's link.
pub type UpFeeder = Feeder<Up>;

/// The packets that a client gets from the server's link.
pub type DownFeeder = Feeder<Down>;
