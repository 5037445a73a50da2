ghost use Rattle.std.specs.Prelude.{◌≡◌, ◌≤◌, ◌<◌, ◌++◌, ◌&&◌, length, find, option_map, true};
ghost use Rattle.std.specs.Prelude.{if◌then◌else◌, string_bytes, IfOk, IfSome, OnOk};
ghost use Rattle.std.specs.Option.{option_copied};
ghost use Rattle.std.specs.Str.{bytes_eq};
ghost use Rattle.rule_traits.specs.declared.kind.Kind.{Kind};
ghost use Rattle.rule_traits.specs.Rules.{kind_at};
ghost use Rattle.rule_traits.specs.ValidRules.{IsValidMobile};
ghost use Rattle.game_model.specs.Buildings.{building_in};
ghost use Rattle.game_model.specs.Grid.{HasSize, IsOn, is_on, with_cell};
ghost use Rattle.game_model.specs.ValidMap.{IsMapFor};
ghost use Rattle.game_model.specs.Walks.{land_of};
ghost use Rattle.grid_routes.specs.EntryCosts.{IsCheap};
ghost use Rattle.command_words.specs.RequestPlain.{plain_route};
ghost use Rattle.rule_commands.specs.FoundRoute.{found_route};
ghost use Rattle.command_answers.specs.Given.{given_contents};
ghost use Rattle.rule_commands.specs.Routes.{blocks_of, cells_text, costs_named, route_line};
ghost use Rattle.rule_commands.specs.Routes.{route_of};
ghost use Rattle.rule_commands.specs.Routes.{routed_step, route_step};
ghost use Rattle.command_answers.specs.Stop.{ReturnsStep};

use crate::route_fault::{RouteFault, route_stop};
use crate::rules::{read_map_bytes, read_typed};
use base::NoMemory;
use command_answers::{GivenFiles, Stop};
use command_words::{MAX_FILES, RouteQuery};
use game_model::{Blocks, Map, Start};
use grid_routes::{Route, Router};
use rule_traits::{Costs, Kind, Rules};
use std::alloc::Global;
use world_units::CPos;

/// The kind of this name.
fn kind_named<'a>(rules: &'a Rules, name: &str) -> Option<&'a Kind>
    ensures found { option_copied result
        ≡ find (λ (kind : Kind). bytes_eq kind.name name.now) rules.now }
    ensures valid { IfSome result (λ kind. IfSome kind.now.mobile IsValidMobile) }
{
    rules.kinds().iter().find(|kind| kind.name.as_str() == name)
}

/// What the ground costs the kind of this name.
fn costs_named<'a>(rules: &Rules, name: &str) -> Result<Costs, Stop<'a>>
    ensures costs { ReturnsStep result (λ costs. costs) (costs_named rules.now name.now) }
    ensures cheap { IfOk result IsCheap }
{
    let Some(kind) = kind_named(rules, name) else {
        return Err(route_stop(RouteFault::NoKind));
    };
    match &kind.mobile {
        Some(mobile) => Ok(mobile.costs),
        None => Err(route_stop(RouteFault::NoMobile)),
    }
}

/// Whether the kind of this number is a building.
fn is_building(rules: &Rules, kind: u16) -> bool
    ensures { result ≡ building_in (kind_at rules.now kind) }
{
    match rules.get(kind) {
        Some(kind) => kind.building,
        None => false,
    }
}

/// Blocks the cell of an actor of the map, if it is a building.
fn block(blocks: &mut Blocks, rules: &Rules, start: &Start)
    requires column { start.now.cell.x < blocks.old.width }
    requires row { start.now.cell.y < blocks.old.height }
    ensures { blocks.new ≡ (if building_in (kind_at rules.now start.now.kind)
        then with_cell blocks.old start.now.cell true else blocks.old) }
{
    if is_building(rules, start.kind) {
        blocks.set(start.cell, true);
    }
}

/// The cells on which a building of the map stands.
fn blocks_of(alloc: Global, rules: &Rules, map: &Map) -> Result<Blocks, NoMemory>
    requires { IsMapFor rules.now map.now }
    ensures made { IfOk result (λ blocks. blocks ≡ blocks_of rules.now map.now) }
    ensures size { IfOk result (HasSize map.now.width map.now.height) }
{
    let mut blocks = Blocks::create(alloc, map.width, map.height)?;
    let starts = map.starts.as_slice();
    for start in starts {
        block(&mut blocks, rules, start);
    }
    Ok(blocks)
}

/// The walk of least cost that takes the best direction at each cell. `None` comes exactly where
/// there is no walk or the start is the goal.
fn find_route(
    alloc: Global,
    map: &Map,
    blocks: &Blocks,
    costs: &Costs,
    from: CPos,
    goal: CPos,
) -> Result<Option<Route>, NoMemory>
    requires terrain { HasSize map.now.width map.now.height map.now.terrain }
    requires blocks { HasSize map.now.width map.now.height blocks.now }
    requires costs { IsCheap costs.now }
    requires from { IsOn map.now.width map.now.height from }
    requires goal { IsOn map.now.width map.now.height goal }
    ensures { IfOk result (λ route. found_route route
        ≡ route_of map.now (land_of map.now blocks.now costs.now goal) from) }
{
    if from == goal {
        return Ok(None);
    }
    let mut router = Router::with_fields(alloc, map.width, map.height, 1)?;
    router.walk(alloc, map, blocks, costs, from, goal)
}

/// Cells, each after a blank.
#[tactic(auto, unfolding(crate::specs::Routes::cell_text))]
fn write_cells(text: &mut String, cells: &[CPos]) -> Result<(), NoMemory>
    ensures { OnOk result (string_bytes text.new ≡ string_bytes text.old ++ cells_text cells.now) }
{
    for cell in cells {
        let (x, y) = (cell.x, cell.y);
        write!(text, " {x},{y}")?;
    }
    Ok(())
}

/// The line of a route.
fn route_line(alloc: Global, found: &Option<Route>) -> Result<String, NoMemory>
    ensures { IfOk result (λ text. string_bytes text ≡ route_line (found_route found.now)) }
{
    match found {
        Some(route) => found_line(alloc, route),
        None => String::from_str(alloc, "route none\n"),
    }
}

/// The line of a route that there is.
fn found_line(alloc: Global, route: &Route) -> Result<String, NoMemory>
    ensures { IfOk result (λ text. string_bytes text ≡ route_line (found_route (Some route.now))) }
{
    let cost = route.cost;
    let mut text = format!(in alloc; "route {cost}")?;
    write_cells(&mut text, route.cells.as_slice())?;
    text.push_str("\n")?;
    Ok(text)
}

/// Whether a cell is on the map.
fn is_on(map: &Map, cell: CPos) -> bool
    ensures { result ≡ is_on map.now.width map.now.height cell }
{
    cell.x < map.width && cell.y < map.height
}

/// The line of a route over a map, for these costs.
fn routed_text<'a>(
    alloc: Global,
    rules: &Rules,
    map: &Map,
    costs: &Costs,
    from: CPos,
    to: CPos,
) -> Result<Vec<u8>, Stop<'a>>
    requires fits { IsMapFor rules.now map.now }
    requires costs { IsCheap costs.now }
    ensures { ReturnsStep result (λ text. text.items)
        (routed_step rules.now map.now costs.now from to) }
{
    if !is_on(map, from) || !is_on(map, to) {
        return Err(route_stop(RouteFault::OffMap));
    }
    let blocks = blocks_of(alloc, rules, map)?;
    let found = find_route(alloc, map, &blocks, costs, from, to)?;
    Ok(route_line(alloc, &found)?.into_bytes())
}

/// The line of the route that is asked for.
pub fn route_text<'a>(
    alloc: Global,
    query: &RouteQuery<'a>,
    given: &GivenFiles,
) -> Result<Vec<u8>, Stop<'a>>
    requires { length given.now.rules.items ≤ MAX_FILES }
    ensures { ReturnsStep result (λ text. text.items)
        (route_step (plain_route query.now) (given_contents given.now)) }
{
    let (rules, _skipped) = read_typed(alloc, query.rules.as_slice(), &given.rules)?;
    let map = read_map_bytes(alloc, &rules, query.map_file, given.map_bytes())?;
    let costs = costs_named(&rules, query.kind)?;
    routed_text(alloc, &rules, &map, &costs, query.from, query.to)
}
