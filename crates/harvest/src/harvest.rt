ghost use Rattle.std.specs.Prelude.{◌≡◌, ◌-◌, ◌^◌, ◌<◌, ℕ, List, Some};
ghost use Rattle.game_model.specs.declared.actor.Actor.{Actor};
ghost use Rattle.game_model.specs.Grid.{HasSize, IsOn};
ghost use Rattle.game_model.specs.World.{actor_of};
ghost use Rattle.game_tick.specs.Harvesting.{after_harvest, after_loading, after_search};
ghost use Rattle.game_tick.specs.Nearest.{nearest_ore};
ghost use Rattle.grid_routes.specs.Routing.{IsSameSight};
ghost use Rattle.motion.specs.Ground.{SeesMap, built_in};
ghost use Rattle.game_model.specs.Kinds.{kind_of};
ghost use Rattle.game_model.specs.Setup.{setup_in};
ghost use Rattle.harvest.specs.Steps.{IsHarvested};

use crate::fields::{has_ore, is_full, is_loaded, take_bale};
use crate::load::carry;
use crate::search::nearest_ore;
use activities::Activity;
use actor_table::ActorTable;
use game_model::{Ground, Ore};
use grid_routes::Router;
use motion::{go_towards_on_current_ground, pop_head, set_head};
use rule_traits::Rules;
use world_units::CPos;

/// The named cell has no ore: the nearest that has takes its place. Where there is none, what is
/// loaded is delivered, or the activity ends.
fn search(t: &mut ActorTable, ore: &Ore, id: u32, cell: CPos)
    requires { HasSize t.old.width t.old.height ore.now }
    ensures { (cash : List ℕ) (a : Actor) → actor_of t.old.actors id ≡ Some a →
        IsHarvested t.old t.new ore.now cash (after_search
        (record { actors = t.old.actors; ore = ore.now; cash = cash }) a cell
        (nearest_ore ore.now a.cell)) }
{
    let _on_map = t.len();
    let Some(a) = t.get(id) else {
        return;
    };
    let load = a.body.load;
    let Some(nearest) = nearest_ore(ore, a.cell) else {
        if load > 0 {
            let home = cell;
            set_head(
                t,
                id,
                Activity::Deliver {
                    home,
                    timer: 0,
                    waits: 0,
                },
            );
        } else {
            pop_head(t, id);
        }
        return;
    };
    set_head(
        t,
        id,
        Activity::Harvest {
            cell: nearest,
            timer: 0,
            waits: 0,
        },
    );
}

/// A Harvest on the actor's own cell: one turn more, and after as many as a bale takes a bale of
/// the cell is loaded.
fn load_turn(
    t: &mut ActorTable,
    rules: &Rules,
    ore: &mut Ore,
    id: u32,
    cell: CPos,
    timer: u16,
    waits: u8,
)
    requires cell { IsOn ore.old.width ore.old.height cell }
    requires room { (a : Actor) → actor_of t.old.actors id ≡ Some a → a.body.load < 2 ^ 16 - 1 }
    ensures loaded { (cash : List ℕ) (a : Actor) → actor_of t.old.actors id ≡ Some a →
        IsHarvested t.old t.new ore.new cash (after_loading
        (record { actors = t.old.actors; ore = ore.old; cash = cash }) a (kind_of rules.now a.kind)
        cell timer waits) }
    ensures size { HasSize ore.old.width ore.old.height ore.new }
{
    let _ids_rise = t.len();
    let Some(a) = t.get(id) else {
        return;
    };
    let (kind, load) = (a.kind, a.body.load);
    if is_loaded(rules, kind, timer) {
        let timer = 0;
        take_bale(ore, cell);
        carry(t, id, load + 1, Activity::Harvest { cell, timer, waits });
    } else {
        set_head(
            t,
            id,
            Activity::Harvest {
                cell,
                timer: timer + 1,
                waits,
            },
        );
    }
}

/// The step of a Harvest of a cell. The first applicable case decides: the actor is full, and is to
/// deliver; the cell has no ore; the actor isn't there, and moves there; it loads.
pub(crate) fn harvest(
    t: &mut ActorTable,
    r: &mut Router,
    g: &Ground,
    ore: &mut Ore,
    id: u32,
    cell: CPos,
    timer: u16,
    waits: u8,
)
    requires fits { SeesMap g.now.map.now (built_in g.now) t.old r.old }
    requires ore { HasSize g.now.map.now.width g.now.map.now.height ore.old }
    requires cell { IsOn g.now.map.now.width g.now.map.now.height cell }
    ensures harvested { (cash : List ℕ) (a : Actor) → actor_of t.old.actors id ≡ Some a →
        IsHarvested t.old t.new ore.new cash (after_harvest (setup_in g.now) (built_in g.now)
        (record { actors = t.old.actors; ore = ore.old; cash = cash }) a cell timer waits) }
    ensures size { HasSize g.now.map.now.width g.now.map.now.height ore.new }
    ensures router { IsSameSight r.old r.new }
{
    let Some(a) = t.get(id) else {
        return;
    };
    let (kind, at, load) = (a.kind, a.cell, a.body.load);
    if is_full(g.rules, kind, load) {
        let home = cell;
        set_head(
            t,
            id,
            Activity::Deliver {
                home,
                timer: 0,
                waits: 0,
            },
        );
    } else if !has_ore(ore, cell) {
        search(t, ore, id, cell);
    } else if at == cell {
        load_turn(t, g.rules, ore, id, cell, timer, waits);
    } else {
        go_towards_on_current_ground(t, r, g, id, cell, Activity::Harvest { cell, timer, waits });
    }
}
