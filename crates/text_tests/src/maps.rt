//! A small map cell by cell. Map texts that are read and refused are recorded command lines in the
//! crate `case_runs`.

use game_model::Map;
use map_grid::read_map;
use rule_traits::type_rules;
use std::alloc::{AllocError, Global};
use std::test::Fail;
use world_units::CPos;
use yaml_lines::parse;

/// A map with all terrains, ore and a neutral actor.
const SMALL_MAP: &str = "\
    Size: 5,2\n\
    Tiles:\n\
    \t1: .=r~X\n\
    Ore:\n\
    \t0: .0139\n\
    Actors:\n\
    \ta: B\n\
    \t\tLocation: 4,0\n\
    \tb: A\n\
    \t\tLocation: 0,1\n\
    \t\tOwner: 15\n\
    \t\tFacing: 1023\n\
    ";

/// That map, for rules of the kinds A and B.
fn read_small_map(alloc: Global) -> Result<Map, Fail> {
    let kinds = parse(alloc, 0, b"A:\nB:\n")?;
    let (rules, _) = type_rules(alloc, &kinds)?;
    let forest = parse(alloc, 0, SMALL_MAP.as_bytes())?;
    Ok(read_map(alloc, &forest, &rules)?)
}

/// The characters of a map's terrain and ore, cell by cell.
fn written_ground(alloc: Global, map: &Map) -> Result<String, AllocError> {
    let mut out = String::new(alloc);
    for y in 0..map.terrain.height().min(map.ore.height()) {
        for x in 0..map.terrain.width().min(map.ore.width()) {
            let cell = CPos { x, y };
            let (terrain, bales) = (map.terrain.get(cell), map.ore.get(cell));
            write!(out, "{terrain:?} {bales} ")?;
        }
    }
    Ok(out)
}

/// The cash and the actors of a map.
fn written_starts(alloc: Global, map: &Map) -> Result<String, AllocError> {
    let mut out = String::new(alloc);
    let cash = map.cash;
    write!(out, "{cash}")?;
    for start in map.starts.as_slice() {
        let (kind, owner, x, y) = (start.kind, start.owner, start.cell.x, start.cell.y);
        let facing = start.facing.units();
        write!(out, " {kind}:{owner}:{x},{y}:{facing}")?;
    }
    Ok(out)
}

#[test]
fn small_map(rt: HostRuntime) -> Result<(), Fail> {
    let map = read_small_map(rt.alloc())?;
    let ground = written_ground(rt.alloc(), &map)?;
    assert_eq!(rt;
        ground.as_str(),
        "Clear 0 Clear 0 Clear 10 Clear 30 Clear 90 Clear 0 Road 0 Rough 0 Water 0 Rock 0 "
    );
    let starts = written_starts(rt.alloc(), &map)?;
    assert_eq!(rt; starts.as_str(), "1000 1:255:4,0:0 0:15:0,1:1023");
    Ok(())
}
