use crate::file_names::FileNames;
use crate::host::HostOptions;

/// The lag of a served match where none is given.
pub const DEFAULT_LAG: u8 = 2;

/// The seed of a served match where none is given.
pub const DEFAULT_SEED: u32 = 1;

/// A match that is to be served, with the rules and the map that it is played over.
#[derive(Debug, Drop)]
pub struct ServeQuery<'a> {
    /// The address at which the server listens.
    pub at: &'a str,

    /// The number of clients, 1 to `MAX_CLIENTS`.
    pub clients: u8,

    /// How many frames a client seals ahead of the last one that it ticked, 1 to `MAX_LAG`.
    pub lag: u8,

    /// The seed of the match.
    pub seed: u32,

    /// What is said of the log, the clocks and the ports.
    pub host: HostOptions,

    /// The name of the file that the replay is written to, if one is given.
    pub record_file: Option<&'a str>,

    /// The name of the map's file, if one is given.
    pub map_file: Option<&'a str>,

    /// The names of the rule files, at most `MAX_FILES`.
    pub rules: FileNames<'a>,
}
