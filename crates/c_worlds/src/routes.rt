ghost use Rattle.std.specs.Prelude.{◌≡◌, ◌≢◌, ◌≤◌, ◌<◌, ◌++◌, if◌then◌else◌, length, map, drop};
ghost use Rattle.std.specs.Prelude.{true, IfOk, IfSome, Some, slice_get};
ghost use Rattle.game_model.specs.Buildings.{is_building};
ghost use Rattle.game_model.specs.Grid.{IsOn, with_cell};
ghost use Rattle.game_model.specs.Kinds.{costs_in, kind_of};
ghost use Rattle.game_tick.specs.Turn.{blocks_of};
ghost use Rattle.grid_routes.specs.EntryCosts.{IsCheap};
ghost use Rattle.tick_core.specs.Preview.{IsPreview};
ghost use Rattle.c_objects.specs.declared.code.TheConstants.{NO_MEMORY};
ghost use Rattle.c_worlds.specs.Held.{game_in};
ghost use Rattle.c_worlds.specs.Routes.{TellsAsked, TellsRoute, TellsWay, asked, c_cell_of};
ghost use Rattle.c_worlds.specs.Routes.{c_route_of, cell_in, has_ground, outs};
ghost use Rattle.c_worlds.specs.Told.{room_code, written};

use crate::held::game_of;
use base::NoMemory;
use c_objects::{BAD_ARGUMENT, NO_MEMORY, NO_ROOM, NONE, OK, Object, WRONG_OBJECT};
use game_model::{Actor, Blocks, Map};
use grid_routes::{Route, Router};
use rule_traits::{Costs, Rules};
use std::alloc::Global;
use tick_core::Game;
use world_units::CPos;

/// A cell of a map, as C reads it.
#[repr(C)]
#[derive(Drop)]
pub struct CCell {
    /// Its column.
    pub x: u8,
    /// Its row.
    pub y: u8,
}

/// A route, as C reads it.
#[repr(C)]
#[derive(Drop)]
pub struct CRoute {
    /// The sum of what its steps cost.
    pub cost: u32,
    /// How many cells it has, the first and the last with them.
    pub count: usize,
}

/// What is asked for: the way of an actor of a kind between two cells of the map.
#[derive(Clone, Copy)]
pub struct RouteAsk {
    /// The number of the kind.
    pub kind: u16,
    /// The first cell.
    pub from: CPos,
    /// The last cell.
    pub goal: CPos,
}

/// The costs of a kind that enters no cell.
const NO_WAY: Costs = Costs {
    clear: 0,
    road: 0,
    rough: 0,
    water: 0,
};

/// What the cells cost that actors of the kind enter: 0 without `Mobile`.
fn costs_of(rules: &Rules, kind: u16) -> Costs
    ensures value { result ≡ costs_in (kind_of rules.now kind).mobile }
    ensures cheap { IsCheap result }
{
    let _valid = rules.kinds();
    match rules.get(kind) {
        Some(kind) => match &kind.mobile {
            Some(mobile) => mobile.costs,
            None => NO_WAY,
        },
        None => NO_WAY,
    }
}

/// Whether an actor is a building.
fn is_building(rules: &Rules, a: &Actor) -> bool
    ensures { result ≡ is_building rules.now a.now }
{
    match rules.get(a.kind) {
        Some(kind) => kind.building,
        None => false,
    }
}

/// Marks the cell of an actor that is a building.
fn mark(blocks: &mut Blocks, rules: &Rules, a: &Actor)
    requires { IsOn blocks.old.width blocks.old.height a.now.cell }
    ensures { blocks.new ≡ (if is_building rules.now a.now then with_cell blocks.old a.now.cell true
        else blocks.old) }
{
    if is_building(rules, a) {
        blocks.set(a.cell, true);
    }
}

/// The cells on which buildings stand now. Out of memory is its only error.
fn blocks_of(alloc: Global, game: &Game) -> Result<Blocks, NoMemory>
    ensures { IfOk result (λ blocks. blocks ≡ blocks_of game.now.setup game.now.world.actors) }
{
    let _head = game.head();
    let rules = game.rules();
    let map = game.map();
    let mut blocks = Blocks::create(alloc, map.width, map.height)?;
    for i in 0..game.actor_count() {
        let Some(actor) = game.actor_at(i) else {
            unreachable!()
        };
        mark(&mut blocks, rules, actor);
    }
    Ok(blocks)
}

/// The way of an actor of a kind, as it would begin now. Its router is its own, and so the game
/// stays as it is. Out of memory is its only error.
fn way_of(alloc: Global, game: &Game, ask: RouteAsk) -> Result<Option<Route>, NoMemory>
    requires ground { has_ground game.now.setup.map ≡ true }
    requires from { IsOn game.now.setup.map.width game.now.setup.map.height ask.from }
    requires goal { IsOn game.now.setup.map.width game.now.setup.map.height ask.goal }
    ensures { IfOk result (IsPreview game.now.setup game.now.world ask.kind ask.from ask.goal) }
{
    let map = game.map();
    let costs = costs_of(game.rules(), ask.kind);
    let blocks = blocks_of(alloc, game)?;
    let mut router = Router::with_fields(alloc, map.width, map.height, 1)?;
    router.walk(alloc, map, &blocks, &costs, ask.from, ask.goal)
}

/// Whether there is a terrain for each cell of a map.
fn has_ground(map: &Map) -> bool
    ensures { result ≡ has_ground map.now }
{
    map.terrain.width() == map.width && map.terrain.height() == map.height
}

/// The cell of these numbers, if it is on a map.
fn cell_in(map: &Map, x: u32, y: u32) -> Option<CPos>
    ensures value { result ≡ cell_in map.now x y }
    ensures on { IfSome result (IsOn map.now.width map.now.height) }
{
    if x >= u32::from(map.width) || y >= u32::from(map.height) {
        return None;
    }
    Some(CPos {
        x: x as u8,
        y: y as u8,
    })
}

/// What is asked for, if the game has such a kind and such cells.
fn asked(game: &Game, kind: u32, x: u32, y: u32, to_x: u32, to_y: u32) -> Option<RouteAsk>
    ensures value { result ≡ asked game.now kind x y to_x to_y }
    ensures ground { IfSome result (λ ask. has_ground game.now.setup.map ≡ true) }
    ensures from { IfSome result (λ ask.
        IsOn game.now.setup.map.width game.now.setup.map.height ask.from) }
    ensures goal { IfSome result (λ ask.
        IsOn game.now.setup.map.width game.now.setup.map.height ask.goal) }
{
    let map = game.map();
    if kind as usize >= game.rules().kinds().len() {
        return None;
    }
    if !has_ground(map) {
        return None;
    }
    let Some(from) = cell_in(map, x, y) else {
        return None;
    };
    let Some(goal) = cell_in(map, to_x, to_y) else {
        return None;
    };
    Some(RouteAsk {
        kind: kind as u16,
        from,
        goal,
    })
}

/// The i-th of some cells, from 0, which is there.
fn c_cell_at(cells: &[CPos], i: usize) -> CCell
    requires { i < length cells.now }
    ensures { slice_get (map c_cell_of cells.now) i ≡ Some result }
{
    let Some(cell) = cells.get(i) else {
        unreachable!()
    };
    CCell {
        x: cell.x,
        y: cell.y,
    }
}

/// Writes cells to the beginning of an array.
fn write_cells(cells: &[CPos], out: &mut [CCell])
    requires { length cells.now ≤ length out.old }
    ensures { out.new ≡ map c_cell_of cells.now ++ drop (length cells.now) out.old }
{
    for i in 0..cells.len() {
        out[i] = c_cell_at(cells, i);
    }
}

/// Writes a route, and its cells where they have room.
#[tactic(auto, using(crate::proofs::WriteLemmas::counted))]
fn write_route(found: &Route, out: &mut [CCell], route: &mut CRoute) -> u32
    ensures code { result ≡ room_code (length out.old) (length found.now.cells) }
    ensures out { out.new ≡ written (map c_cell_of found.now.cells) out.old }
    ensures route { route.new ≡ c_route_of found.now }
{
    *route = CRoute {
        cost: found.cost,
        count: found.cells.len(),
    };
    if found.cells.len() > out.len() {
        return NO_ROOM;
    }
    write_cells(found.cells.as_slice(), out);
    OK
}

/// Writes the way that is asked for, as [`find_route`] does.
#[tactic(auto, using(crate::proofs::RouteLemmas::tells))]
fn tell_way(alloc: Global, game: &Game, ask: RouteAsk, out: &mut [CCell], route: &mut CRoute) -> u32
    requires ground { has_ground game.now.setup.map ≡ true }
    requires from { IsOn game.now.setup.map.width game.now.setup.map.height ask.from }
    requires goal { IsOn game.now.setup.map.width game.now.setup.map.height ask.goal }
    ensures told { result ≢ NO_MEMORY
        → TellsWay game.now ask out.old route.old (outs result out.new route.new) }
    ensures out { result ≡ NO_MEMORY → out.new ≡ out.old }
    ensures route { result ≡ NO_MEMORY → route.new ≡ route.old }
{
    match way_of(alloc, game, ask) {
        Ok(Some(found)) => write_route(&found, out, route),
        Ok(None) => NONE,
        Err(_) => NO_MEMORY,
    }
}

/// The same, if the game has such a kind and such cells.
fn tell_asked(
    alloc: Global,
    game: &Game,
    ask: Option<RouteAsk>,
    out: &mut [CCell],
    route: &mut CRoute,
) -> u32
    requires ground { IfSome ask (λ ask. has_ground game.now.setup.map ≡ true) }
    requires from { IfSome ask (λ ask.
        IsOn game.now.setup.map.width game.now.setup.map.height ask.from) }
    requires goal { IfSome ask (λ ask.
        IsOn game.now.setup.map.width game.now.setup.map.height ask.goal) }
    ensures told { result ≢ NO_MEMORY
        → TellsAsked game.now ask out.old route.old (outs result out.new route.new) }
    ensures out { result ≡ NO_MEMORY → out.new ≡ out.old }
    ensures route { result ≡ NO_MEMORY → route.new ≡ route.old }
{
    match ask {
        Some(ask) => tell_way(alloc, game, ask, out, route),
        None => BAD_ARGUMENT,
    }
}

/// The way of least cost that an actor of a kind would begin now in a world, a peer or a server:
/// over the terrain and the buildings as they stand, not around other units. Its cells begin with
/// the first and end with the last. `NONE` where there is no way, as of a kind that doesn't move,
/// or both cells are the same. `NO_ROOM` where the array is too short: then only the cost and the
/// number of the cells are written. `BAD_ARGUMENT` where the rules have no such kind, or the map no
/// such cells.
pub fn find_route(
    object: &mut Object,
    alloc: Global,
    kind: u32,
    x: u32,
    y: u32,
    to_x: u32,
    to_y: u32,
    out: &mut [CCell],
    route: &mut CRoute,
) -> u32
    ensures told { result ≢ NO_MEMORY → TellsRoute (game_in object.old.held.held) kind x y to_x
        to_y out.old route.old (outs result out.new route.new) }
    ensures out { result ≡ NO_MEMORY → out.new ≡ out.old }
    ensures route { result ≡ NO_MEMORY → route.new ≡ route.old }
    ensures stays { object.new.held.held ≡ object.old.held.held }
{
    let Some(kept) = object.take(alloc) else {
        return WRONG_OBJECT;
    };
    let code = match game_of(&kept) {
        Some(game) => {
            let ask = asked(game, kind, x, y, to_x, to_y);
            tell_asked(alloc, game, ask, out, route)
        }
        None => WRONG_OBJECT,
    };
    object.put(kept);
    code
}
