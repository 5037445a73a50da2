ghost use Rattle.std.specs.Prelude.{◌≡◌, ◌⊎◌, ◌*◌, ◌≤◌, Bool, All, Contains, IfOk, OnErr, OnOk};
ghost use Rattle.std.specs.Prelude.{[], Some, vec_capacity};
ghost use Rattle.game_model.specs.Grid.{Grid, IsOn};
ghost use Rattle.game_model.specs.BestDirection.{best_dir_of};
ghost use Rattle.game_model.specs.Walks.{IsBestDirection, land_of};
ghost use Rattle.game_model.specs.declared.map.Map.{Map};
ghost use Rattle.grid_routes.specs.EntryCosts.{IsCheap, land_over};
ghost use Rattle.grid_routes.specs.Asked.{ask_for, CountsOn, KeepsOnly};
ghost use Rattle.grid_routes.specs.Questions.{IsAsked};
ghost use Rattle.grid_routes.specs.Routing.{AreSized, IsNew, IsSameSight, IsSameSize, LooksAt};
ghost use Rattle.grid_routes.specs.Steps.{IsRoute};

use crate::ask::Ask;
use crate::findings::Findings;
use crate::index::FIELDS;
use crate::route::Route;
use base::NoMemory;
use game_model::{Blocks, Map};
use rule_traits::Costs;
use std::alloc::Global;
use std::marker::Model;
use world_units::CPos;

/// Finds routes over maps of one size.
pub struct Router {
    width: u8,
    height: u8,
    findings: Findings,
}

// By hand, so that what drops one needs no proof of how its parts are dropped.
impl Drop for Router {
    fn drop(self) {
        let Self {
            width: _,
            height: _,
            findings: _,
        } = self;
    }
}

impl Model for Router {
    ghost use Rattle.grid_routes.specs.Asked.{asks_in};
    ghost use Rattle.grid_routes.specs.Findings.{AreFindings};
    ghost use Rattle.grid_routes.specs.Routing.{Routing};

    ghost Value = { Routing };

    ghost view = { λ r. record {
      width = r.width;
      height = r.height;
      terrain = r.findings.fields.search.entry_costs.terrain;
      built = r.findings.fields.search.entry_costs.built;
      last = r.findings.fields.ask;
      asks = asks_in r.findings;
      computed = r.findings.computed;
    } };

    ghost invariant = { λ r. AreFindings r.width r.height r.findings };
}

impl Router {
    /// A router for maps of this size, which keeps [`FIELDS`] fields of distances. Out of memory is
    /// its only error.
    pub fn create(alloc: Global, w: u8, h: u8) -> Result<Router, NoMemory>
        ensures { IfOk result (IsNew w h) }
    {
        Router::with_fields(alloc, w, h, FIELDS)
    }

    /// A router for maps of this size, which keeps at most so many fields of distances. It answers
    /// as any other; one that keeps few takes less memory, and begins more fields. Out of memory is
    /// its only error.
    pub fn with_fields(alloc: Global, w: u8, h: u8, most: usize) -> Result<Router, NoMemory>
        requires { most ≤ FIELDS }
        ensures { IfOk result (IsNew w h) }
    {
        Ok(Router {
            width: w,
            height: h,
            findings: Findings::create(alloc, w, h, most)?,
        })
    }

    /// How many fields of distances were begun; one that is begun again, since it has to go farther,
    /// counts once. It stays at the greatest `u64`.
    pub fn computed(&self) -> u64
        ensures { result ≡ self.now.computed }
    {
        self.findings.computed
    }

    /// Looks at a ground: the terrain of a map and the buildings on it. What was found over another
    /// one is forgotten.
    pub fn look(&mut self, map: &Map, blocks: &Blocks)
        requires { AreSized self.old map.now blocks.now }
        ensures looks { LooksAt self.new map.now blocks.now }
        ensures size { IsSameSize self.old self.new }
        ensures computed { self.new.computed ≡ self.old.computed }
        ensures asks { All (Contains self.old.asks) self.new.asks }
        ensures same { LooksAt self.old map.now blocks.now → self.new ≡ self.old }
        ensures forgets { (LooksAt self.old map.now blocks.now → ⊥) → self.new.asks ≡ [] }
    {
        self.findings.look(map, blocks);
    }

    /// The least direction whose allowed step begins a walk of least cost to the goal, over the
    /// ground at which the router looks. `None` comes exactly where there is no walk or the cell is
    /// the goal.
    pub fn best_dir_on_current_ground(
        &mut self,
        costs: &Costs,
        from: CPos,
        goal: CPos,
    ) -> Option<u8>
        requires costs { IsCheap costs.now }
        requires from { IsOn self.old.width self.old.height from }
        requires goal { IsOn self.old.width self.old.height goal }
        ensures value { (map : Map) (built : Grid Bool) → LooksAt self.old map built →
            result ≡ best_dir_of map (land_of map built costs.now goal) from }
        ensures best { IsBestDirection (land_over self.old.terrain self.old.built costs.now goal)
            from result }
        ensures sight { IsSameSight self.old self.new }
        ensures computed { CountsOn self.old.asks (ask_for costs.now goal) self.old.computed
            self.new.computed }
        ensures asks { KeepsOnly (ask_for costs.now goal) self.old.asks self.new.asks }
        ensures again { self.old.last ≡ Some (ask_for costs.now goal) →
            self.new.computed ≡ self.old.computed }
        ensures begun { (self.new.computed ≡ self.old.computed) ⊎
            (self.new.last ≡ Some (ask_for costs.now goal)) }
    {
        let ask = Ask {
            goal,
            costs: *costs,
        };
        self.findings.best_dir(&ask, from)
    }

    /// The least direction whose allowed step begins a walk of least cost to the goal. `None` comes
    /// exactly where there is no walk or the cell is the goal.
    pub fn best_dir(
        &mut self,
        map: &Map,
        blocks: &Blocks,
        costs: &Costs,
        from: CPos,
        goal: CPos,
    ) -> Option<u8>
        requires sizes { AreSized self.old map.now blocks.now }
        requires costs { IsCheap costs.now }
        requires from { IsOn map.now.width map.now.height from }
        requires goal { IsOn map.now.width map.now.height goal }
        ensures value { result ≡
            best_dir_of map.now (land_of map.now blocks.now costs.now goal) from }
        ensures best { IsBestDirection (land_of map.now blocks.now costs.now goal) from result }
        ensures size { IsSameSize self.old self.new }
        ensures looks { LooksAt self.new map.now blocks.now }
        ensures asked { IsAsked map.now blocks.now (ask_for costs.now goal) self.old self.new }
    {
        self.look(map, blocks);
        self.best_dir_on_current_ground(costs, from, goal)
    }

    /// The walk that takes the best direction at each cell. `None` comes exactly where there is no
    /// walk or the cell is the goal. Out of memory is its only error, and then the router is as
    /// before.
    pub fn walk(
        &mut self,
        alloc: Global,
        map: &Map,
        blocks: &Blocks,
        costs: &Costs,
        from: CPos,
        goal: CPos,
    ) -> Result<Option<Route>, NoMemory>
        requires sizes { AreSized self.old map.now blocks.now }
        requires costs { IsCheap costs.now }
        requires from { IsOn map.now.width map.now.height from }
        requires goal { IsOn map.now.width map.now.height goal }
        ensures route { IfOk result (IsRoute (land_of map.now blocks.now costs.now goal) from) }
        ensures size { IsSameSize self.old self.new }
        ensures looks { OnOk result (LooksAt self.new map.now blocks.now) }
        ensures asked { OnOk result
            (IsAsked map.now blocks.now (ask_for costs.now goal) self.old self.new) }
        ensures kept { OnErr result (self.new ≡ self.old) }
    {
        let room = room_for_walk(alloc, self.width, self.height)?;
        let ask = Ask {
            goal,
            costs: *costs,
        };
        self.findings.look(map, blocks);
        self.findings.settle(&ask, from);
        Ok(self.findings.fields.search.route(room, from, goal))
    }
}

/// Room for each cell of a map of this size. Out of memory is its only error.
fn room_for_walk(alloc: Global, w: u8, h: u8) -> Result<Vec<CPos>, NoMemory>
    ensures empty { IfOk result (λ room. room.items ≡ []) }
    ensures room { IfOk result (λ room. w * h ≤ vec_capacity room) }
{
    Vec::with_capacity(alloc, usize::from(w) * usize::from(h))
}
