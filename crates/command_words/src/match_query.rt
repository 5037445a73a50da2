use crate::file_names::FileNames;

/// A match by what a file holds, a drill, a script, a replay or a save, with the rules and the map
/// that it is played over.
#[derive(Debug, Drop)]
pub struct MatchQuery<'a> {
    /// The name of that file.
    pub file: &'a str,

    /// The name of the map's file, if one is given.
    pub map_file: Option<&'a str>,

    /// The names of the rule files, at most `MAX_FILES`.
    pub rules: FileNames<'a>,
}
