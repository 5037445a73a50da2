ghost use Rattle.std.specs.Prelude.{◌≡◌, ◌<◌};
ghost use Rattle.world_units.specs.Angles.{add_angle_of};

use std::marker::Model;

/// A full turn, in units of angles.
pub const FULL_TURN: u16 = 1024;

/// Half a turn, in units of angles.
pub const HALF_TURN: u16 = 512;

/// An angle or a facing, always below `FULL_TURN`. 0 is north, and angles grow counter-clockwise,
/// so that 256 is west.
#[derive(Clone, Copy, Debug, Default, PartialEq, Eq, Hash)]
pub struct WAngle(u16);

impl Model for WAngle {
    ghost use Rattle.std.specs.Prelude.{ℕ, ◌<◌};

    ghost Value = { ℕ };

    ghost view = { λ angle. angle.0 };

    ghost invariant = { λ angle. angle.0 < 1024 };

    ghost inverse = { λ units. record { 0 = units } };
}

impl WAngle {
    /// The angle of so many units, which are below `FULL_TURN`.
    pub fn new(units: u16) -> Self
        requires { units < FULL_TURN }
        ensures { result ≡ units }
    {
        WAngle(units)
    }

    /// The angle in units, below `FULL_TURN`.
    pub fn units(self) -> u16
        ensures value { result ≡ self }
        ensures below_full_turn { result < FULL_TURN }
    {
        self.0
    }
}

/// The sum of two angles, modulo a full turn.
pub fn add_angle(a: WAngle, b: WAngle) -> WAngle
    ensures { result ≡ add_angle_of a b }
{
    WAngle((a.0 + b.0) % FULL_TURN)
}
