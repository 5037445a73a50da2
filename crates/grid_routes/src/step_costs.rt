/// What it costs to enter a cell from its neighbours, 0 to 70: 0 where it can't be entered so.
#[derive(Clone, Copy)]
pub(crate) struct StepCosts {
    /// From each neighbour that shares a side.
    pub(crate) straight: u32,
    /// From the neighbour in the north-east, and so on.
    pub(crate) north_east: u32,
    pub(crate) south_east: u32,
    pub(crate) south_west: u32,
    pub(crate) north_west: u32,
}

/// Whether a cell can be entered across each of its corners, as far as the cells beside the step
/// say.
#[derive(Clone, Copy)]
pub(crate) struct Corners {
    pub(crate) north_east: bool,
    pub(crate) south_east: bool,
    pub(crate) south_west: bool,
    pub(crate) north_west: bool,
}
