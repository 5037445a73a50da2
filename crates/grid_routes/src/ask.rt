ghost use Rattle.std.specs.Prelude.{◌≡◌, ◌↔◌, IsTrue};

use rule_traits::Costs;
use world_units::CPos;

/// What a field of distances belongs to: where to, and what entering each kind of ground costs.
#[derive(Clone, Copy)]
pub(crate) struct Ask {
    /// The cell to go to.
    pub(crate) goal: CPos,
    /// What entering each kind of ground costs.
    pub(crate) costs: Costs,
}

impl Ask {
    /// Whether both go to one cell at the same costs.
    pub(crate) fn is_same(&self, other: &Ask) -> bool
        ensures { IsTrue result ↔ (self.now ≡ other.now) }
    {
        self.goal == other.goal
            && self.costs.clear == other.costs.clear
            && self.costs.road == other.costs.road
            && self.costs.rough == other.costs.rough
            && self.costs.water == other.costs.water
    }
}
