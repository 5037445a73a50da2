ghost use Rattle.std.specs.Prelude.{◌≡◌, ◌-◌, ◌*◌, ◌<◌, ◌≤◌, ◌↔◌};
ghost use Rattle.world_units.specs.Turning.{gap_of, TakesShorterSide, turn_of, turned};

use crate::angle::{FULL_TURN, WAngle};

/// The facing after one turn of at most `by` units from `f` towards `d`.
///
/// The turn goes over the shorter side, over lower angles where both are as long. It brings the
/// facing nearer by `by` units, or all the way where less is left, so it never passes its aim.
pub fn turn_towards(f: WAngle, d: WAngle, by: u16) -> WAngle
    ensures value { result ≡ turn_of f d by }
    ensures nearer { gap_of result d ≡ gap_of f d - by }
    ensures shorter { TakesShorterSide f d by result }
{
    let (facing, aim) = (f.units(), d.units());
    let left = (facing + FULL_TURN - aim) % FULL_TURN;
    let right = (aim + FULL_TURN - facing) % FULL_TURN;
    if left < by || right < by {
        d
    } else if right < left {
        WAngle::new((facing + by) % FULL_TURN)
    } else {
        WAngle::new((facing + FULL_TURN - by) % FULL_TURN)
    }
}

/// The law of repeated turns: so many turns of `by` units reach the aim exactly where together they
/// are as long as the distance over the shorter side. The call does nothing.
pub fn turns_arrive(f: WAngle, d: WAngle, by: u16, steps: u16)
    ensures { (turned f d by steps ≡ d) ↔ (gap_of f d ≤ steps * by) }
{
    let _facing = f.units();
    let _aim = d.units();
}
