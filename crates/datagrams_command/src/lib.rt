//! What the command `datagrams` answers: a schedule of a link over datagrams, event by event.
//!
//! [`datagrams_answer`] reads a script whose lines are events (`specs/Script.antt`), lets a
//! `datagram_schedule::Exchange` do them, and gives the text (`specs/Text.antt`). The reply is
//! defined over the schedule as sets and lists, with neither window nor queue: the laws of
//! `datagram_schedule` say that both agree.
#![tactic(auto)]

mod datagrams;
mod event_word;
mod script_line;
mod text;

pub use datagrams::datagrams_answer;
