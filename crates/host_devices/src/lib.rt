//! The devices of a match's host: what the log, the clocks and the console's line `stop` rest on.
//!
//! [`HostDesk`] is what they share: how the match stands, what was typed, the lines of the log, and two
//! flags. [`HostWatch`] is told what happens and notes it there; [`HostConsole`] gives what was typed,
//! and the kicks of the clock, a line at a time. Three threads of the host work beside the match, none
//! of which it waits for: [`read_typed`] reads standard input, [`write_log`] writes the log, and
//! [`cut_late_links`] ends the links that hold up a match that is over. The clauses of `Source`, `Watch`
//! and `Net` are proved. The crate stands on `game_io`, on `host_standing` for what acts when and what
//! is said, and on `crossbeam_queue`.
#![tactic(auto)]

mod host_console;
mod host_desk;
mod host_watch;
mod log_writer;
mod moments;
mod typed_line;
mod typed_reader;
mod waits;

pub use host_console::HostConsole;
pub use host_desk::{DeskShares, HostDesk, SharedDesk};
pub use host_watch::HostWatch;
pub use log_writer::{end_log, write_log};
pub use typed_reader::read_typed;
pub use waits::{cut_late_links, limit_lobby};
