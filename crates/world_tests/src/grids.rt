use activities::Queue;
use base::List;
use game_model::{Actor, Blocks, Body, Build, Builds, Head, Leg, Ore, Terrain, Tiles};
use game_orders::PerClient;
use std::test::Fail;
use world_units::{CPos, WAngle};

#[test]
fn grids_keep_what_is_set(rt: HostRuntime) -> Result<(), Fail> {
    let here = CPos { x: 4, y: 3 };
    let there = CPos { x: 0, y: 2 };
    let mut tiles = Tiles::create(rt.alloc(), 5, 4)?;
    let mut other_tiles = Tiles::create(rt.alloc(), 5, 4)?;
    tiles.set(here, Terrain::Rock);
    assert_eq!(rt;
        (tiles.get(here), tiles.get(there)),
        (Terrain::Rock, Terrain::Clear)
    );
    assert!(rt; !tiles.is_same(&other_tiles));
    other_tiles.copy_from(&tiles);
    assert!(rt; tiles.is_same(&other_tiles));

    let mut blocks = Blocks::create(rt.alloc(), 5, 4)?;
    let mut other_blocks = Blocks::create(rt.alloc(), 5, 4)?;
    blocks.set(there, true);
    assert_eq!(rt; (blocks.has(there), blocks.has(here)), (true, false));
    assert!(rt; !blocks.is_same(&other_blocks));
    other_blocks.copy_from(&blocks);
    assert!(rt; blocks.is_same(&other_blocks));
    Ok(())
}

#[test]
fn ore_is_counted_by_row(rt: HostRuntime) -> Result<(), Fail> {
    let here = CPos { x: 1, y: 2 };
    let beside = CPos { x: 2, y: 2 };
    let mut ore = Ore::create(rt.alloc(), 3, 4)?;
    ore.set(here, 90);
    ore.set(beside, 10);
    ore.set(here, 80);
    assert_eq!(rt;
        (ore.row_count(1), ore.row_count(2), ore.count()),
        (0, 2, 2)
    );
    ore.set(beside, 0);
    let twin = ore.copy()?;
    assert_eq!(rt;
        (twin.get(here), twin.row_count(2), twin.count()),
        (80, 1, 1)
    );
    Ok(())
}

#[test]
fn a_world_is_copied(rt: HostRuntime) -> Result<(), Fail> {
    let mut builds = Builds::empty();
    let pushed = builds.try_push(Build { kind: 3, left: 20 });
    let body = Body {
        owner: 1,
        facing: WAngle::new(128),
        leg: Some(Leg {
            dir: 2,
            progress: 7,
        }),
        health: 100,
        load: 0,
        reload: 0,
        acts: Queue::empty(),
        builds,
    };
    let mut actors = List::new(rt.alloc());
    actors.push(Actor {
        id: 1,
        kind: 0,
        cell: CPos { x: 1, y: 0 },
        body,
    })?;
    let head = Head {
        tick: 5,
        seed: 7,
        drawn: 3,
        next_id: 2,
        pace: 1,
        cash: PerClient::create(2, 1_000),
        gone: PerClient::create(2, false),
    };
    let world = head.world_with(actors, Ore::create(rt.alloc(), 2, 1)?);
    let twin = world.copy(rt.alloc())?;
    assert_eq!(rt;
        (twin.tick, twin.seed, twin.drawn, twin.next_id, twin.pace),
        (5, 7, 3, 2, 1)
    );
    assert_eq!(rt;
        (pushed, twin.actors.len(), twin.cash.clients()),
        (true, 1, 2)
    );
    Ok(())
}
