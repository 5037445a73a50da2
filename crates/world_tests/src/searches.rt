//! How often a router searches: what it keeps from one question to the next. Which routes it finds
//! is shown by recorded command lines.

ghost use Rattle.std.specs.Prelude.{IfOk};
ghost use Rattle.grid_routes.specs.Routing.{AreSized, IsMapSized, IsSameSize};

mod rows;

use base::List;
use game_model::{Blocks, Map, Ore, Tiles};
use grid_routes::Router;
use rows::{ACROSS, ASKED_OFTEN, Cells, MANY_GOALS, Part, SIDE_BY_SIDE, Walkers};
use rule_traits::Costs;
use std::alloc::{AllocError, Global};
use std::test::Fail;
use world_units::CPos;

/// The costs of a kind to which all ground is the same.
const EVEN: Costs = Costs {
    clear: 1,
    road: 1,
    rough: 1,
    water: 1,
};

/// A map of clear ground, with nothing on it.
fn open_map(alloc: Global, w: u8, h: u8) -> Result<Map, AllocError>
    ensures { IfOk result (λ map. IsMapSized w h map) }
{
    Ok(Map {
        width: w,
        height: h,
        terrain: Tiles::create(alloc, w, h)?,
        ore: Ore::create(alloc, w, h)?,
        starts: List::new(alloc),
        cash: 0,
    })
}

/// A cell so many steps and so many neighbours away from the first.
fn cell_at(first: Cells, step: Cells, steps: u8, beside: Cells, number: u8) -> CPos {
    let x = first.0.saturating_add(step.0.saturating_mul(steps));
    let y = first.1.saturating_add(step.1.saturating_mul(steps));
    CPos {
        x: x.saturating_add(beside.0.saturating_mul(number)),
        y: y.saturating_add(beside.1.saturating_mul(number)),
    }
}

/// Asks for one of the walkers, if it is there, when it has taken so many steps.
fn ask(router: &mut Router, map: &Map, blocks: &Blocks, walkers: &Walkers, steps: u8, number: u8)
    requires { AreSized router.old map.now blocks.now }
    ensures { IsSameSize router.old router.new }
{
    let from = cell_at(walkers.first, walkers.step, steps, walkers.beside, number);
    let goal = cell_at(walkers.goal, (0, 0), 0, walkers.goal_beside, number);
    let on_map = from.x < map.width && from.y < map.height;
    if number < walkers.count && on_map && goal.x < map.width && goal.y < map.height {
        let _direction = router.best_dir(map, blocks, &EVEN, from, goal);
    }
}

/// Asks for all walkers of a part, by turns.
fn ask_all(router: &mut Router, map: &Map, blocks: &Blocks, part: &Part, steps: u8)
    requires { AreSized router.old map.now blocks.now }
    ensures { IsSameSize router.old router.new }
{
    for number in 0..u8::MAX {
        ask(router, map, blocks, &part.walkers.0, steps, number);
        ask(router, map, blocks, &part.walkers.1, steps, number);
    }
}

/// Asks the questions of a part.
fn walk(router: &mut Router, map: &Map, blocks: &Blocks, part: &Part)
    requires { AreSized router.old map.now blocks.now }
    ensures { IsSameSize router.old router.new }
{
    for steps in 0..part.asked {
        ask_all(router, map, blocks, part, steps);
    }
}

/// Whether a router for maps of this size searched as often as told by the end of each part.
fn is_as_told(alloc: Global, size: Cells, parts: &[Part]) -> Result<bool, AllocError> {
    let (w, h) = size;
    let map = open_map(alloc, w, h)?;
    let mut blocks = Blocks::create(alloc, w, h)?;
    let mut router = Router::create(alloc, w, h)?;
    for part in parts {
        if let Some(((x, y), stands)) = part.building {
            if x < w && y < h {
                blocks.set(CPos { x, y }, stands);
            }
        }
        walk(&mut router, &map, &blocks, part);
        if router.computed() != part.computed {
            return Ok(false);
        }
    }
    Ok(true)
}

#[test]
fn what_was_found_is_kept(rt: HostRuntime) -> Result<(), Fail> {
    let alloc = rt.alloc();
    assert!(rt; is_as_told(alloc, (3, 1), &ASKED_OFTEN)?);
    assert!(rt; is_as_told(alloc, (60, 1), &MANY_GOALS)?);
    assert!(rt; is_as_told(alloc, (41, 150), &SIDE_BY_SIDE)?);
    assert!(rt; is_as_told(alloc, (40, 40), &ACROSS)?);
    Ok(())
}
