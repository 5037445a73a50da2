//! The links of a match, on both sides.
//!
//! A link joins the server and one client, both ways. At the server [`greet`] takes what the client
//! sends first and decides whether it is in the match (`specs/Greeting.antt`). Then two threads
//! serve the link. [`reader_session`] puts the client's plays into its column of a `frame_table`
//! and its reports into an end of the queue of `report_line`, up to the end that the bytes have
//! (`specs/Session.antt`, `specs/Sessions.antt`). [`sender_session`] writes what the greeting says:
//! the welcome and all columns, a refusal, or nothing (`specs/Sending.antt`,
//! `specs/SenderSession.antt`). Each leaves no column but its client's. At the client
//! [`play_match`] greets and plays a script by what comes down (`specs/Playing.antt`,
//! `specs/Stages.antt`, `specs/PlayMatch.antt`), and [`play_match_from`] whatever an
//! [`OrderSource`] orders, as a [`Bot`] does by the world that the player holds
//! (`specs/Plays.antt`). The crate stands on `order_packets` for the packets, on `game_io` for the
//! links, on `frame_table` for the columns, on `peer_core` for what has reached a client, and on
//! `bots` for the rule of a bot.
#![tactic(auto)]

mod bot;
mod coming_packet;
mod downward;
mod ending;
mod first_packet;
mod following;
mod greeting;
mod invite;
mod law;
mod limits;
mod link_reading;
mod order_source;
mod piece;
mod piece_taking;
mod play_cause;
mod play_end;
mod played;
mod player;
mod player_round;
mod playing;
mod playthrough;
mod read_cause;
mod reader;
mod reader_end;
mod reading;
mod script;
mod sender;
mod sender_end;
mod sending;
mod stop_reason;
mod waiting;

pub use bot::Bot;
pub use first_packet::{greet, greet_counted};
pub use greeting::Greeting;
pub use invite::Invite;
pub use law::{
    a_bot_orders_by_its_rule, a_links_bytes_have_one_session, a_player_writes_in_turn,
    a_players_bytes_have_one_match, a_players_world_is_the_fold,
    a_session_begins_that_of_its_bytes, an_ended_session_is_that_of_its_bytes,
};
pub use limits::{MAX_LINK_BYTES, MAX_PLAY_BYTES};
pub use order_source::OrderSource;
pub use play_cause::PlayCause;
pub use play_end::PlayEnd;
pub use played::Played;
pub use playthrough::{play_match, play_match_from};
pub use read_cause::ReadCause;
pub use reader::{reader_session, reader_session_counted};
pub use reader_end::ReaderEnd;
pub use report_line::{
    Heard, ReportEnds, ReportReceiver, Reports, report_queue, reports_of_each_client_are_heard,
};
pub use script::Script;
pub use sender::sender_session;
pub use sender_end::SenderEnd;
