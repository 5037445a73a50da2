ghost use Rattle.std.specs.Prelude.{Bool};
ghost use Rattle.world_units.specs.declared.cell.CPos.{CPos};
ghost use Rattle.rule_traits.specs.declared.trait_fields.Costs.{Costs};
ghost use Rattle.game_model.specs.declared.map.Map.{Map};
ghost use Rattle.game_model.specs.Grid.{Grid, HasSize};
ghost use Rattle.game_model.specs.Walks.{land_of};
ghost use Rattle.grid_routes.specs.Least.{AreLeast};
ghost use Rattle.grid_routes.specs.EntryCosts.{IsCheap};

/// A law of routes: over a map that has a terrain for each cell, for costs of at most 10 and any
/// buildings and goal, the distance and the best direction as functions are the least cost of all
/// walks, and the least direction that begins such a walk.
#[tactic(auto, using(crate::proofs::Distances::are_least))]
pub fn distances_are_least()
    ensures { (map : Map) (built : Grid Bool) (costs : Costs) (goal : CPos) →
        HasSize map.width map.height map.terrain → IsCheap costs →
        AreLeast map (land_of map built costs goal) }
{}
