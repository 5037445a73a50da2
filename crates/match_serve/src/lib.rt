//! The server of a match over links.
//!
//! [`serve_match`] accepts the links of a match, greets each, and serves all of them at once, each
//! by the two sessions of `match_net` beside each other, while the calling thread ticks every frame
//! that is ready and a console may kick clients. What it hands back is in `specs/Serve.antt`: the
//! columns that the links' bytes made, the world and the wanted hashes that these columns make, how
//! each link ended and how many bytes were taken from it, and which reports the board has.
//! [`serve_watched`] does the same, and tells a watch what happens. What
//! threads know of the columns meanwhile is in `specs/Passes.antt`, what serves a link in
//! `specs/Seats.antt`. The crate stands on `match_net` for the sessions and the queue of reports,
//! on `frame_table` for the columns, on `server_core` for the board, and on `game_io` for links and
//! console.
#![tactic(auto)]

mod accepting;
mod closing;
mod console;
mod handing;
mod hearing;
mod kicks;
mod leaving;
mod link_end;
mod link_seat;
mod logging;
mod opening;
mod running;
mod serve;
mod serve_fault;
mod served;
mod served_link;
mod serving;
mod ticking;

pub use link_end::LinkEnd;
pub use serve::{serve_match, serve_watched};
pub use serve_fault::ServeFault;
pub use served::Served;
