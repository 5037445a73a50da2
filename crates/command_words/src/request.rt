use crate::bot_query::BotQuery;
use crate::file_names::FileNames;
use crate::match_query::MatchQuery;
use crate::route_query::RouteQuery;
use crate::serve_query::ServeQuery;
use crate::world_range::WorldRange;

/// The request of an accepted command line. Each name is an argument, or the part of one after `=`,
/// as it was given.
#[derive(Debug, Drop)]
pub enum Request<'a> {
    /// `drill --script FILE --map FILE --record FILE RULES`: run the drill that the file holds,
    /// over the map and the rules, and write its replay, if a file is named for it.
    Drill {
        /// The drill.
        query: MatchQuery<'a>,
        /// The name of the file that the replay is written to, if one is given.
        record: Option<&'a str>,
    },

    /// `yaml FILES`: print the resolved forest of the files, taken together in this order.
    Yaml {
        /// The names of the files, 1 to `MAX_FILES`.
        files: FileNames<'a>,
    },

    /// `check --map FILE RULES`: check the files as rules, taken together in this order, and the
    /// map for them.
    Check {
        /// The name of the map's file, if one is given.
        map_file: Option<&'a str>,
        /// The names of the files, 1 to `MAX_FILES`.
        rules: FileNames<'a>,
    },

    /// `route --map FILE --kind NAME --from X,Y --to X,Y RULES`: print a route over the map.
    Route(RouteQuery<'a>),

    /// `make --number N`: run the made match of this number.
    Make {
        /// The number of the match.
        number: u32,
    },

    /// `local --script FILE --map FILE --bots N RULES`: play the script that the file holds, and
    /// bots beside it, on threads of this machine, over the map and the rules.
    Local {
        /// The script.
        query: MatchQuery<'a>,
        /// How many bots play beside its clients, at most `MAX_BOTS`.
        bots: u8,
    },

    /// `serve --at ADDRESS --clients N --lag N --seed N --patience SECONDS --lobby SECONDS
    /// --udp-ports A-B --quiet --record FILE --map FILE RULES`: serve a match to clients over links,
    /// over the map and the rules, and write its replay, if a file is named for it.
    Serve(ServeQuery<'a>),

    /// `play --at ADDRESS --script FILE --quiet --map FILE RULES`: play the script that the file
    /// holds over a link to a server, over the map and the rules.
    Play {
        /// The script.
        query: MatchQuery<'a>,
        /// The address of the server.
        at: &'a str,
        /// Whether nothing is logged.
        is_quiet: bool,
    },

    /// `play --at ADDRESS --bot --frames N --quiet --map FILE RULES`: let a bot play over a link to
    /// a server, over the map and the rules.
    PlayBot(BotQuery<'a>),

    /// `replay --file FILE --map FILE RULES`: run the replay that the file holds, over the map and
    /// the rules.
    Replay(MatchQuery<'a>),

    /// `migrate --file FILE --to FILE --map FILE RULES`: run the replay that the file holds, over
    /// the map and the rules, and write it migrated.
    Migrate {
        /// The replay.
        query: MatchQuery<'a>,
        /// The name of the file that the migrated replay is written to.
        to: &'a str,
    },

    /// `save --file FILE --frames N --to FILE --map FILE RULES`: run the first frames of the replay
    /// that the file holds, over the map and the rules, and write a save of the world then.
    Save {
        /// The replay.
        query: MatchQuery<'a>,
        /// How many of its frames are run.
        frames: u32,
        /// The name of the file that the save is written to.
        to: &'a str,
    },

    /// `continue --save FILE --file FILE --map FILE RULES`: run the later frames of the replay that
    /// the file holds, over the map and the rules, from a save on.
    Continue {
        /// The replay.
        query: MatchQuery<'a>,
        /// The name of the save's file.
        save: &'a str,
    },

    /// `view --file FILE --client N --map FILE RULES`: run the replay that the file holds, over the
    /// map and the rules, and print what a client has seen and explored of the map.
    View {
        /// The replay.
        query: MatchQuery<'a>,
        /// The number of the client.
        client: u32,
    },

    /// `worlds --file FILE --from N --to N --every N --map FILE RULES`: run the replay that the
    /// file holds, over the map and the rules, and print its worlds.
    Worlds {
        /// The replay.
        query: MatchQuery<'a>,
        /// Which of its worlds are printed.
        range: WorldRange,
    },

    /// `compare --file FILE --with FILE --map FILE RULES`: print how two saves, or two replays,
    /// differ that are over the map and the rules.
    Compare {
        /// The first of them.
        query: MatchQuery<'a>,
        /// The name of the second one's file.
        second: &'a str,
    },

    /// `datagrams --script FILE`: run the schedule of datagrams that the file holds.
    Datagrams {
        /// The name of the schedule's file.
        script: &'a str,
    },
}
