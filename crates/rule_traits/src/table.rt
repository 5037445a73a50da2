//! The fields that hold numbers, each with its form, its range and the value of a trait without it.

use crate::field::{Field, Form};

macro_rules! field {
    ($form:ident, $least:literal to $greatest:literal, without $default:literal) => {
        Field {
            form: Form::$form,
            least: $least,
            greatest: $greatest,
            default: $default,
        }
    };
}

// Health.
/// Hit points.
pub const HP: Field = field!(Number, 1 to 1_000_000_000, without 1);

// Mobile.
/// Units a tick.
pub const SPEED: Field = field!(Distance, 0 to 65_535, without 1);

/// 1,024ths of a turn a tick.
pub const TURN_SPEED: Field = field!(Number, 0 to 1_023, without 512);

/// The cost of a clear cell.
pub const CLEAR_COST: Field = field!(Number, 0 to 10, without 2);

/// The cost of a road.
pub const ROAD_COST: Field = field!(Number, 0 to 10, without 1);

/// The cost of rough ground.
pub const ROUGH_COST: Field = field!(Number, 0 to 10, without 4);

/// The cost of water.
pub const WATER_COST: Field = field!(Number, 0 to 10, without 0);

// Harvester.
/// Bales.
pub const CAPACITY: Field = field!(Number, 1 to 10_000, without 28);

/// Ticks that loading one bale takes.
pub const BALE_LOAD_DELAY: Field = field!(Number, 0 to 65_535, without 4);

/// Ticks that unloading one bale takes.
pub const BALE_UNLOAD_DELAY: Field = field!(Number, 0 to 65_535, without 4);

// Refinery.
/// Cash for one bale.
pub const BALE_VALUE: Field = field!(Number, 0 to 10_000, without 25);

// Buildable.
/// Ticks that building takes.
pub const BUILD_DURATION: Field = field!(Number, 0 to 65_535, without 100);

// Valued.
/// Cash.
pub const COST: Field = field!(Number, 0 to 2_000_000_000, without 0);

// Armament.
/// Units.
pub const RANGE: Field = field!(Distance, 0 to 131_072, without 1_536);

/// Hit points.
pub const DAMAGE: Field = field!(Number, 0 to 1_000_000, without 0);

/// Hit points.
pub const SPREAD: Field = field!(Number, 0 to 1_000_000, without 0);

/// Ticks.
pub const RELOAD: Field = field!(Number, 0 to 65_535, without 25);

// RevealsShroud.
/// Units.
pub const REVEAL_RANGE: Field = field!(Distance, 0 to 131_072, without 5_120);
