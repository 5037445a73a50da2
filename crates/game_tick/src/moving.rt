/// How a step towards a cell ended.
#[derive(Clone, Copy, Debug, Drop, PartialEq, Eq)]
pub enum Moving {
    /// It turned, set out, or waited. It has waited at so many steps in a row, below
    /// `game_model::MAX_WAITS`.
    Going(u8),
    /// There is no way, or it has waited too often.
    GivenUp,
}
