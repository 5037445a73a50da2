use frame_core::PlayList;

/// What is planned for one client's column.
#[derive(Drop)]
pub enum Planned {
    /// Nothing: the pass that feeds the column adds plays as they come.
    Free,
    /// These plays, at most `MAX_FRAMES`, frame by frame from 0, and a departure after the last.
    Plays(PlayList),
}
