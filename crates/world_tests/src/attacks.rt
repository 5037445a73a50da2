//! A shot. Fights of small worlds, with what is left of them, are recorded command lines in the
//! crate `case_runs`.

ghost use Rattle.std.specs.Prelude.{◌≡◌, IfOk};
ghost use Rattle.rule_traits.specs.ValidRules.{IsValidKind};
ghost use Rattle.game_model.specs.World.{new_body};
ghost use Rattle.grid_routes.specs.Routing.{IsMapSized};

use activities::{Activity, Queue};
use actor_table::ActorTable;
use base::{List, NoMemory};
use combat::attack_step;
use game_model::{Actor, Blocks, Body, Builds, Ground, Map, Ore, Tiles};
use grid_routes::Router;
use motion::set_head;
use rule_traits::{Armament, Costs, Health, Kind, Mobile, Rules};
use std::alloc::Global;
use std::test::Fail;
use twister::Twister;
use world_units::{CPos, WAngle};
use yaml_lines::Text;

/// The kind 0: a gun that moves and shoots four cells far.
fn gun(alloc: Global) -> Result<Kind, NoMemory>
    ensures { IfOk result (λ kind. IsValidKind 1 kind) }
{
    Ok(Kind {
        name: Text::from_string(String::from_str(alloc, "gun")?)?,
        health: Some(Health { hp: 10 }),
        mobile: Some(Mobile {
            speed: 1,
            turn: 16,
            costs: Costs {
                clear: 1,
                road: 1,
                rough: 1,
                water: 0,
            },
        }),
        building: false,
        harvester: None,
        refinery: None,
        production: None,
        buildable: None,
        valued: None,
        armament: Some(Armament {
            range: 4096,
            damage: 3,
            spread: 3,
            reload: 5,
        }),
        reveals: None,
    })
}

/// The rules of that kind alone.
fn rules_of_gun(alloc: Global) -> Result<Rules, NoMemory> {
    let mut kinds = Vec::new(alloc);
    kinds.push(gun(alloc)?)?;
    Rules::of(alloc, kinds)
}

/// A row of eight clear cells.
fn row(alloc: Global) -> Result<Map, NoMemory>
    ensures { IfOk result (λ map. IsMapSized 8 1 map) }
{
    Ok(Map {
        width: 8,
        height: 1,
        terrain: Tiles::create(alloc, 8, 1)?,
        ore: Ore::create(alloc, 8, 1)?,
        starts: List::new(alloc),
        cash: 0,
    })
}

/// A gun of 10 hit points on a cell of the row, that faces east.
fn actor(id: u32, x: u8) -> Actor
    ensures { result ≡ (record {
      id = id;
      kind = 0;
      cell = record { x = x; y = 0 };
      body = new_body
          0 768 10;
    }) }
{
    Actor {
        id,
        kind: 0,
        cell: CPos { x, y: 0 },
        body: Body {
            owner: 0,
            facing: WAngle::new(768),
            leg: None,
            health: 10,
            load: 0,
            reload: 0,
            acts: Queue::empty(),
            builds: Builds::empty(),
        },
    }
}

/// The health, the turns until it can fire again, and the number of activities of an actor.
fn told(t: &ActorTable, id: u32) -> Option<(u32, u16, usize)> {
    let a = t.get(id)?;
    Some((a.body.health, a.body.reload, a.body.acts.len()))
}

/// A gun fires once at a target three cells away, which keeps 6 of its 10 hit points: the first
/// random word of seed 1 is 1,791,095,845, which is 1 modulo 4, so that the shot has 3 and 1.
#[test]
fn a_gun_fires(rt: HostRuntime) -> Result<(), Fail> {
    let alloc = rt.alloc();
    let (rules, map) = (rules_of_gun(alloc)?, row(alloc)?);
    let blocks = Blocks::create(alloc, 8, 1)?;
    let g = Ground {
        rules: &rules,
        map: &map,
        blocks: &blocks,
    };
    let mut r = Router::create(alloc, 8, 1)?;
    let mut t = ActorTable::create(alloc, 8, 1)?;
    t.insert(actor(1, 0));
    t.insert(actor(2, 3));
    let mut dice = Twister::seeded(1);
    let attack = Activity::Attack {
        target: 1,
        waits: 0,
    };
    set_head(&mut t, 2, attack);
    attack_step(&mut t, &mut r, &g, &mut dice, 2);
    assert!(rt; told(&t, 1) == Some((6, 0, 0)));
    assert!(rt; told(&t, 2) == Some((10, 5, 1)));
    Ok(())
}
