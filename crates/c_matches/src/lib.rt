//! The calls of the C library over matches: the greeting of a link, the peer of a client, the
//! server, and what a bot plays.
//!
//! A packet is taken and given whole, its length in front, as `order_packets` spells it. Each call
//! takes objects, and answers a code of `c_objects`, and some tell a number. What it answers, what
//! it holds then and what it writes are functions of what the objects held and of the arguments,
//! where memory doesn't run out (`specs/`); where it does, nothing has changed. No call asks
//! anything of its caller but what the types say.
#![tactic(auto)]

mod answer;
mod greetings;
mod law;
mod packet;
mod packet_reading;
mod peer_packets;
mod peers;
mod plays;
mod server_frames;
mod servers;
mod terms;

pub use answer::Answer;
pub use greetings::{greeted, hello, welcome, welcomed};
pub use law::{
    peers_hold_the_agreed_world, servers_hold_the_agreed_world, worlds_follow_the_server,
};
pub use packet::CPacket;
pub use peer_packets::{peer_report, peer_seal};
pub use peers::{peer_create, peer_deliver, peer_tick};
pub use plays::{CPlay, bot};
pub use server_frames::{CAlarm, server_alarm, server_entry, server_tick};
pub use servers::{server_create, server_drop, server_up};
pub use terms::{CTerms, Terms};
