ghost use Rattle.std.specs.Prelude.{◌≡◌, IfOk};
ghost use Rattle.game_model.specs.Grid.{IsOn};
ghost use Rattle.game_model.specs.Kinds.{costs_in, kind_of};
ghost use Rattle.grid_routes.specs.EntryCosts.{IsCheap};
ghost use Rattle.tick_core.specs.Preview.{IsPreview};

use crate::scene::Scene;
use base::NoMemory;
use grid_routes::Route;
use rule_traits::{Costs, Rules};
use std::alloc::Global;
use world_units::CPos;

/// The costs of a kind that enters no cell.
const NO_WAY: Costs = Costs {
    clear: 0,
    road: 0,
    rough: 0,
    water: 0,
};

/// What the cells cost that actors of the kind enter: 0 without `Mobile`.
fn costs_of(rules: &Rules, kind: u16) -> Costs
    ensures value { result ≡ costs_in (kind_of rules.now kind).mobile }
    ensures cheap { IsCheap result }
{
    let _valid = rules.kinds();
    match rules.get(kind) {
        Some(kind) => match &kind.mobile {
            Some(mobile) => mobile.costs,
            None => NO_WAY,
        },
        None => NO_WAY,
    }
}

impl Scene {
    /// The walk of an actor of a kind, over the buildings as they stand now. Out of memory is its
    /// only error.
    pub(crate) fn route(
        &mut self,
        alloc: Global,
        kind: u16,
        from: CPos,
        goal: CPos,
    ) -> Result<Option<Route>, NoMemory>
        requires from { IsOn self.old.setup.map.width self.old.setup.map.height from }
        requires goal { IsOn self.old.setup.map.width self.old.setup.map.height goal }
        ensures route { IfOk result (IsPreview self.old.setup self.old.world kind from goal) }
        ensures same { self.new ≡ self.old }
    {
        let costs = costs_of(&self.rules, kind);
        self.router
            .walk(alloc, &self.map, &self.blocks, &costs, from, goal)
    }
}
