//! The server of a match: the columns that it agreed, its own world, and the hashes that clients
//! report.
//!
//! A [`Server`] puts the plays that clients send into its columns, lets clients leave, and ticks
//! its world by the agreed frames. Each frame that it ticked is ready by its columns, and stays so.
//! Its world is the agreed world of its ticked frames, and its marks (the checksums of other
//! engines) are the hashes of the agreed worlds after them (`specs/Served.antt`).
//!
//! Its [`Board`] keeps the first hash that each client reports for each frame, also before the
//! server ticks it, and returns the [`Alarm`] of a client (a desync report): the least frame for
//! which the client's hash differs from the server's own (`specs/Alarm.antt`).
#![tactic(auto)]

mod alarm;
mod board;
mod client_reports;
mod reported;
mod server;
mod up_answer;

pub use alarm::Alarm;
pub use board::Board;
pub use reported::Reported;
pub use server::Server;
pub use up_answer::UpAnswer;
