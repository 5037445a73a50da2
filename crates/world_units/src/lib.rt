//! Units of the world: cells, distances, angles and the eight directions.
//!
//! A cell is 1024 units wide and a full turn is 1024 units. Facing 0 is north, and angles grow
//! counter-clockwise. Every call is a formula over whole numbers and takes no memory.
//!
//! The crate promises the formulas and what follows from them. A turn takes the shorter side and
//! never passes its aim. It gets there in as many steps as the distance asks. Opposite directions
//! differ by half a turn, and the distance of two cells is the same both ways. Two cells are equal
//! by `==` exactly where they are the same.
#![tactic(auto)]

mod angle;
mod cell;
mod direction;
mod distance;
mod turning;

pub use angle::{FULL_TURN, HALF_TURN, WAngle, add_angle};
pub use cell::{CELL, CPos};
pub use direction::{
    DIRECTIONS, EAST, NORTH, NORTH_EAST, NORTH_WEST, SOUTH, SOUTH_EAST, SOUTH_WEST, WEST,
    dir_angle, leg_length, opposite, step,
};
pub use distance::{WDist, dist_sq};
pub use turning::{turn_towards, turns_arrive};
