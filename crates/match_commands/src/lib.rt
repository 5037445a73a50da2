//! The top calls of the program `lockstep`: they read their words, run the command that the words
//! name over a disk, and print the answer.
//!
//! `run` has the commands that always return, and `run_waiting` those that may wait for threads or
//! links; each refuses the other's. Both are the whole program over any disk and any sink, and
//! `run_waiting` also over any net and console. Their clauses say what is printed and which status
//! is answered, for every list of words and every content of the files. The program hands them the
//! real ones, made by what [`host_options`] says of the words.
#![tactic(auto)]

mod command;
mod comparing;
mod datagrams;
mod hosting;
mod linking;
mod making;
mod preparing;
mod recording;
mod refusing;
mod replaying;
mod reporting;
mod saving;
mod viewing;
mod waiting;

pub use command::run;
pub use command_words::{HostOptions, PortRange, host_options};
pub use making::made_matches_are_accepted;
pub use refusing::refusals_are_exact;
pub use waiting::{may_wait, run_waiting};
