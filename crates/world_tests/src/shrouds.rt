//! What clients see and have explored: by actors of a row of cells, around one actor, and in a
//! crowd of which few move.

ghost use Rattle.std.specs.Prelude.{◌≡◌, IfOk};

use activities::Queue;
use base::{List, NoMemory};
use game_model::{
    Actor, ActorList, Body, Builds, Gone, MAX_ACTORS, OPENING_PACE, Ore, Purse, World,
};
use game_orders::MAX_CLIENTS;
use rule_traits::{Rules, type_rules};
use shroud::Shroud;
use std::alloc::Global;
use std::rc::Rc;
use std::test::Fail;
use world_units::{CPos, WAngle};
use yaml_lines::parse;

/// The kind 0 sees nothing, the kind 1 one cell far, and the kind 2 two and a half.
const RULES: &[u8] = b"\
    rock:\n\
    scout:\n\
    \tRevealsShroud:\n\
    \t\tRange: 1c0\n\
    tower:\n\
    \tRevealsShroud:\n\
    \t\tRange: 2c512\n\
    ";

/// An actor: its id, its kind, its owner, its column and its health.
type Seer = (u32, u16, u8, u8, u32);

/// The rules, read.
fn rules(alloc: Global) -> Result<Rc<Rules>, Fail> {
    let forest = parse(alloc, 0, RULES)?;
    let (rules, _) = type_rules(alloc, &forest)?;
    Ok(Rc::new(alloc, rules)?)
}

/// An actor that does nothing.
fn actor(id: u32, kind: u16, owner: u8, cell: CPos, health: u32) -> Actor {
    Actor {
        id,
        kind,
        cell,
        body: Body {
            owner,
            facing: WAngle::new(0),
            leg: None,
            health,
            load: 0,
            reload: 0,
            acts: Queue::empty(),
            builds: Builds::empty(),
        },
    }
}

/// A world of two clients with these actors.
fn world(alloc: Global, actors: ActorList) -> Result<World, NoMemory> {
    Ok(World {
        tick: 0,
        seed: 0,
        drawn: 0,
        next_id: 1,
        pace: OPENING_PACE,
        cash: Purse::create(2, 0),
        gone: Gone::create(2, false),
        actors,
        ore: Ore::create(alloc, 1, 1)?,
    })
}

/// Lets the shroud follow to a world of no more actors than a world has.
fn follow(shroud: &mut Shroud, world: &World) {
    if world.actors.len() <= MAX_ACTORS {
        shroud.update(world);
    }
}

/// The letters of a client's row: `o` seen, `.` explored and not seen, `#` neither.
fn row(alloc: Global, shroud: &Shroud, c: u8, y: u8) -> Result<String, NoMemory> {
    let mut text = String::new(alloc);
    if c >= shroud.clients() || y >= shroud.height() {
        return Ok(text);
    }
    for x in 0..shroud.width() {
        let cell = CPos { x, y };
        text.push_str(match (shroud.seen(c, cell), shroud.explored(c, cell)) {
            (true, true) => "o",
            (true, false) => "?",
            (false, true) => ".",
            (false, false) => "#",
        })?;
    }
    Ok(text)
}

/// The actors of a row, one after the other: who they are after each update, what clients 0 and 1
/// then see and have explored, and how many were counted.
const STEPS: [(&[Seer], &str, &str, u64); 12] = [
    (&[(1, 1, 0, 2, 5)], "#ooo####", "########", 1),
    (&[(1, 1, 0, 3, 5)], "#.ooo###", "########", 2),
    (&[(1, 1, 0, 3, 4)], "#.ooo###", "########", 2),
    (
        &[(1, 1, 0, 3, 4), (2, 1, 0, 5, 1)],
        "#.ooooo#",
        "########",
        3,
    ),
    (
        &[(1, 1, 0, 3, 0), (2, 1, 0, 5, 1)],
        "#...ooo#",
        "########",
        4,
    ),
    (&[(2, 1, 0, 5, 1)], "#...ooo#", "########", 4),
    (&[(2, 2, 0, 5, 1)], "#..ooooo", "########", 5),
    (&[(2, 2, 255, 5, 1)], "#.......", "########", 6),
    (&[(2, 2, 1, 5, 1)], "#.......", "###ooooo", 7),
    (&[(2, 0, 1, 5, 1)], "#.......", "###.....", 8),
    (
        &[(9, 1, 0, 0, 1), (2, 1, 1, 7, 1)],
        "oo......",
        "###...oo",
        10,
    ),
    (
        &[(4, 1, 0, 7, 1), (4, 1, 0, 0, 1)],
        "oo....oo",
        "###.....",
        12,
    ),
];

/// What is seen and explored after each step is what the step says.
#[test]
fn a_row_is_seen(rt: HostRuntime) -> Result<(), Fail> {
    let alloc = rt.alloc();
    let mut shroud = Shroud::create(alloc, rules(alloc)?, 8, 1, 2)?;
    for (seers, first, second, touched) in STEPS {
        let mut actors = List::new(alloc);
        for (id, kind, owner, x, health) in seers {
            actors.push(actor(*id, *kind, *owner, CPos { x: *x, y: 0 }, *health))?;
        }
        follow(&mut shroud, &world(alloc, actors)?);
        assert_eq!(rt; row(alloc, &shroud, 0, 0)?.as_str(), first, "{seers:?}");
        assert_eq!(rt; row(alloc, &shroud, 1, 0)?.as_str(), second, "{seers:?}");
        assert_eq!(rt; shroud.touched(), touched, "{seers:?}");
    }
    Ok(())
}

/// A range of two and a half cells has the cells (2, 1) away, at a squared distance of 5, and not
/// those (2, 2) away, at 8; it ends at the edge of the map.
#[test]
fn a_disc_is_round(rt: HostRuntime) -> Result<(), Fail> {
    let alloc = rt.alloc();
    let mut shroud = Shroud::create(alloc, rules(alloc)?, 6, 5, 1)?;
    let mut actors = List::new(alloc);
    actors.push(actor(1, 2, 0, CPos { x: 1, y: 2 }, 1))?;
    follow(&mut shroud, &world(alloc, actors)?);
    for (y, wanted) in ["ooo###", "oooo##", "oooo##", "oooo##", "ooo###"]
        .iter()
        .enumerate()
    {
        assert_eq!(rt; row(alloc, &shroud, 0, y as u8)?.as_str(), *wanted, "{y}");
    }
    Ok(())
}

/// The crowd of a full map of 128 columns, in which the first so many have moved.
fn crowd(alloc: Global, moved: u32) -> Result<World, NoMemory> {
    let mut actors = List::new(alloc);
    for i in 0..2_048_u32 {
        let cell = CPos {
            x: (i % 64) as u8 * 2 + u8::from(i < moved),
            y: (i / 64) as u8,
        };
        actors.push(actor(i + 1, 1, (i % 2) as u8, cell, 1))?;
    }
    world(alloc, actors)
}

/// Of 2,048 actors of which ten move a frame, ten are counted anew.
#[test]
fn who_stays_is_not_counted_again(rt: HostRuntime) -> Result<(), Fail> {
    let alloc = rt.alloc();
    let mut shroud = Shroud::create(alloc, rules(alloc)?, 128, 128, 2)?;
    follow(&mut shroud, &crowd(alloc, 0)?);
    assert_eq!(rt; shroud.touched(), 2_048);
    for (moved, touched) in [(10, 2_058), (20, 2_068), (20, 2_068), (30, 2_078)] {
        follow(&mut shroud, &crowd(alloc, moved)?);
        assert_eq!(rt; shroud.touched(), touched);
    }
    Ok(())
}
