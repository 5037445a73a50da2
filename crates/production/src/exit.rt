ghost use Rattle.std.specs.Prelude.{◌≡◌, ◌<◌, ◌&&◌, nat_lt, not, IfSome, IsTrue, is_some};
ghost use Rattle.std.specs.Option.{option_map};
ghost use Rattle.game_model.specs.Buildings.{neighbour_of};
ghost use Rattle.game_model.specs.Walks.{cost_at};
ghost use Rattle.game_model.specs.Grid.{at_cell, HasSize, IsOn};
ghost use Rattle.game_model.specs.World.{is_occupied};
ghost use Rattle.game_tick.specs.Building.{exit_of, has_room, is_open};
ghost use Rattle.production.specs.Exits.{dir_of, exit_after, IsExit, IsRoom};
ghost use Rattle.production.specs.Grounds.{AreSized};
ghost use Rattle.game_model.specs.Kinds.{costs_in, kind_of};
ghost use Rattle.game_model.specs.Setup.{setup_in};

use actor_table::ActorTable;
use game_model::{Build, Ground, MAX_ACTORS, Map, cost_on};
use game_tick::LAST_ID;
use rule_traits::{Costs, Rules};
use world_units::{CPos, DIRECTIONS, step};

/// Where a unit comes out.
#[derive(Clone, Copy, Drop)]
pub(crate) struct Exit {
    /// The direction from its builder, below `DIRECTIONS`.
    pub dir: u8,
    /// The cell.
    pub cell: CPos,
}

/// What it costs a kind to enter cells: 0 where it has not `Mobile`, and where the number is no
/// kind's.
fn costs_of(rules: &Rules, kind: u16) -> Costs
    ensures { result ≡ costs_in (kind_of rules.now kind).mobile }
{
    let none = Costs {
        clear: 0,
        road: 0,
        rough: 0,
        water: 0,
    };
    let Some(kind) = rules.get(kind) else {
        return none;
    };
    match kind.mobile {
        Some(mobile) => mobile.costs,
        None => none,
    }
}

/// The neighbour of a cell in direction `d`, where it is on the map.
fn neighbour(map: &Map, p: CPos, d: u8) -> Option<CPos>
    requires { d < DIRECTIONS }
    ensures value { result ≡ neighbour_of map.now.width map.now.height p d }
    ensures on_map { IfSome result (IsOn map.now.width map.now.height) }
{
    let q = step(p, d)?;
    if q.x < map.width && q.y < map.height {
        Some(q)
    } else {
        None
    }
}

/// Whether a unit with these costs can come out into a cell of the map: it can enter the ground,
/// and nobody holds the cell.
fn is_open(t: &ActorTable, map: &Map, costs: &Costs, p: CPos) -> bool
    requires on_map { IsOn map.now.width map.now.height p }
    requires terrain { HasSize map.now.width map.now.height map.now.terrain }
    ensures { result ≡ (nat_lt 0 (cost_at costs.now (at_cell map.now.terrain p)) && not
        (is_occupied t.now.actors p)) }
{
    cost_on(costs, map.terrain.get(p)) > 0 && t.at_cell(p).is_none()
}

/// The exit in direction `d`, if there is one.
fn exit_at(t: &ActorTable, g: &Ground, kind: u16, from: CPos, d: u8) -> Option<Exit>
    requires sizes { AreSized t.now g.now }
    requires direction { d < DIRECTIONS }
    ensures value { is_some result ≡ is_open (setup_in g.now) t.now.actors
        (kind_of g.now.rules.now kind) (neighbour_of g.now.map.now.width g.now.map.now.height from
        d) }
    ensures same { IfSome result (λ exit. exit.dir ≡ d) }
    ensures exit { IfSome result (IsExit (setup_in g.now) t.now.actors from) }
{
    let cell = neighbour(g.map, from, d)?;
    let costs = costs_of(g.rules, kind);
    if is_open(t, g.map, &costs, cell) {
        Some(Exit { dir: d, cell })
    } else {
        None
    }
}

/// The exit in the least direction for a unit of a kind, if there is one.
fn find_exit(t: &ActorTable, g: &Ground, kind: u16, from: CPos) -> Option<Exit>
    requires { AreSized t.now g.now }
    ensures value { option_map dir_of result ≡ exit_of (setup_in g.now) t.now.actors
        (kind_of g.now.rules.now kind) from }
    ensures exit { IfSome result (IsExit (setup_in g.now) t.now.actors from) }
{
    for d in 0..DIRECTIONS {
        if let Some(exit) = exit_at(t, g, kind, from, d) {
            return Some(exit);
        }
    }
    None
}

/// Whether there is room for one more actor, and an id.
fn has_room(t: &ActorTable, next_id: u32) -> bool
    ensures value { result ≡ has_room t.now.actors next_id }
    ensures room { IsTrue result → IsRoom t.now.actors next_id }
{
    t.len() < MAX_ACTORS && next_id < LAST_ID
}

/// The exit of a unit of a kind whose build has so many turns left: `None` where some are left,
/// where there is no room for one more actor, and where no neighbour is open.
pub(crate) fn exit_after(
    t: &ActorTable,
    g: &Ground,
    next_id: u32,
    build: Build,
    from: CPos,
) -> Option<Exit>
    requires { AreSized t.now g.now }
    ensures value { option_map dir_of result ≡ exit_after (setup_in g.now) t.now.actors next_id
        build.left build.kind from }
    ensures exit { IfSome result (IsExit (setup_in g.now) t.now.actors from) }
    ensures room { IfSome result (λ exit. IsRoom t.now.actors next_id) }
{
    if build.left == 0 && has_room(t, next_id) {
        find_exit(t, g, build.kind, from)
    } else {
        None
    }
}
