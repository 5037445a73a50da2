//! The arguments of the command line, read by `clap`.
//!
//! `read_arguments` returns the request that they name. A list of arguments is accepted exactly
//! where `clap`'s own definition of such a command line accepts it, the number of files that it
//! names is allowed, the cells of a route are cells, a player is one, and ports are ports; the
//! definition stands in `specs/Commands.antt`, one entry a command. [`host_options`] has what the
//! arguments say of the log, the clocks and the ports, before a match begins. It is a crate of its
//! own so that only this one is proved together with `clap`.
#![tactic(auto)]

mod bot_query;
mod command;
mod file_names;
mod host;
mod host_reading;
mod host_words;
mod laws;
mod match_query;
mod player;
mod port_range;
mod reading;
mod request;
mod route_query;
mod serve_query;
mod words_fault;
mod world_range;

pub use bot_query::BotQuery;
pub use file_names::FileNames;
pub use host::{HostOptions, MAX_SECONDS};
pub use host_words::host_options;
pub use laws::{
    accepted_words_name_a_request, check_names, command_comes_second, compare_after_equals,
    continue_after_equals, datagrams_after_equals, local_after_equals, local_with_bots,
    make_of_a_number, map_after_equals, migrated_files_after_equals, no_command, play_after_equals,
    play_by_a_bot, record_after_equals, replay_after_equals, route_with_options, save_with_options,
    script_after_equals, script_in_a_word, serve_refuses_clocks_and_ports, serve_with_options,
    serve_without_options, view_of_a_client, worlds_with_options, worlds_without_options,
    yaml_names,
};
pub use match_query::MatchQuery;
pub use port_range::{MAX_PORT, PortRange};
pub use reading::read_arguments;
pub use request::Request;
pub use route_query::RouteQuery;
pub use serve_query::{DEFAULT_LAG, DEFAULT_SEED, ServeQuery};
pub use words_fault::WordsFault;
pub use world_range::{DEFAULT_EVERY, DEFAULT_FROM, WorldRange};

/// The most bots beside the clients of a script, of which there is at least one.
pub const MAX_BOTS: u8 = 15;

/// The most positional arguments of a command that takes some.
pub const MAX_FILES: usize = 64;
