use base::List;
use world_units::CPos;

/// A walk of least cost.
#[derive(Drop)]
pub struct Route {
    /// The sum of what its steps cost.
    pub cost: u32,
    /// Its cells from the start to the goal, both with it.
    pub cells: List<CPos>,
}
