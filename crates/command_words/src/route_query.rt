use crate::file_names::FileNames;
use world_units::CPos;

/// What `route` asks for: a walk of least cost over a map.
#[derive(Debug, Drop)]
pub struct RouteQuery<'a> {
    /// The name of the map's file.
    pub map_file: &'a str,

    /// The name of the kind that walks.
    pub kind: &'a str,

    /// Where the walk starts.
    pub from: CPos,

    /// Where it ends.
    pub to: CPos,

    /// The names of the rule files, 1 to `MAX_FILES`.
    pub rules: FileNames<'a>,
}
