ghost use Rattle.std.specs.Prelude.{◌≡◌, ◌<◌, IfSome, Some};
ghost use Rattle.world_units.specs.Angles.{add_angle_of, dir_angle_of};
ghost use Rattle.world_units.specs.Directions.{leg_length_of, opposite_of, step_of};

use crate::angle::{FULL_TURN, HALF_TURN, WAngle};
use crate::cell::{CELL, CPos};

/// How many directions there are. A direction is a number below this, clockwise from north.
pub const DIRECTIONS: u8 = 8;

/// Towards lower rows.
pub const NORTH: u8 = 0;

/// Towards lower rows and higher columns.
pub const NORTH_EAST: u8 = 1;

/// Towards higher columns.
pub const EAST: u8 = 2;

/// Towards higher rows and higher columns.
pub const SOUTH_EAST: u8 = 3;

/// Towards higher rows.
pub const SOUTH: u8 = 4;

/// Towards higher rows and lower columns.
pub const SOUTH_WEST: u8 = 5;

/// Towards lower columns.
pub const WEST: u8 = 6;

/// Towards lower rows and lower columns.
pub const NORTH_WEST: u8 = 7;

/// The length of a leg to a neighbour that shares a corner only: about 1024 times the root of 2.
const DIAGONAL: u32 = 1448;

/// The angle between two neighbouring directions.
const EIGHTH_TURN: u16 = 128;

/// The facing of direction `d`, which is below `DIRECTIONS`, in 1,024ths of a turn.
pub fn dir_angle(d: u8) -> WAngle
    requires { d < DIRECTIONS }
    ensures { result ≡ dir_angle_of d }
{
    WAngle::new((FULL_TURN - EIGHTH_TURN * u16::from(d)) % FULL_TURN)
}

/// How many units it takes to the neighbour in direction `d`, which is below `DIRECTIONS`: 1024
/// straight on, 1448 across a corner.
pub fn leg_length(d: u8) -> u32
    requires { d < DIRECTIONS }
    ensures { result ≡ leg_length_of d }
{
    if d % 2 == 0 { CELL } else { DIAGONAL }
}

/// The direction the other way, half a turn from `d`, which is below `DIRECTIONS`.
pub fn opposite(d: u8) -> u8
    requires { d < DIRECTIONS }
    ensures value { result ≡ opposite_of d }
    ensures direction { result < DIRECTIONS }
    ensures half_turn { dir_angle_of result ≡ add_angle_of (dir_angle_of d) HALF_TURN }
    ensures back { opposite_of result ≡ d }
{
    (d + DIRECTIONS / 2) % DIRECTIONS
}

/// The neighbour of a cell in direction `d`, which is below `DIRECTIONS`. `None` comes exactly
/// where a coordinate would leave 0 to 255.
pub fn step(p: CPos, d: u8) -> Option<CPos>
    requires { d < DIRECTIONS }
    ensures value { result ≡ step_of p d }
    ensures back { IfSome result (λ q. step_of q (opposite_of d) ≡ Some p) }
{
    let x = match d {
        NORTH_EAST | EAST | SOUTH_EAST => p.x.checked_add(1)?,
        SOUTH_WEST | WEST | NORTH_WEST => p.x.checked_sub(1)?,
        _ => p.x,
    };
    let y = match d {
        NORTH_WEST | NORTH | NORTH_EAST => p.y.checked_sub(1)?,
        SOUTH_EAST | SOUTH | SOUTH_WEST => p.y.checked_add(1)?,
        _ => p.y,
    };
    Some(CPos { x, y })
}
