use crate::file_names::FileNames;

/// A match over a link that a bot plays, with the rules and the map that it is played over.
#[derive(Debug, Drop)]
pub struct BotQuery<'a> {
    /// The address of the server.
    pub at: &'a str,

    /// How many frames the bot plays, at most `MAX_FRAMES`.
    pub frames: u32,

    /// Whether nothing is logged.
    pub is_quiet: bool,

    /// The name of the map's file, if one is given.
    pub map_file: Option<&'a str>,

    /// The names of the rule files, at most `MAX_FILES`.
    pub rules: FileNames<'a>,
}
