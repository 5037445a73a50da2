//! The ends of legs. Moves of small worlds, with what is left of them, are recorded command lines
//! in the crate `case_runs`.

ghost use Rattle.std.specs.Prelude.{◌≡◌, ◌<◌, IfOk, Some};
ghost use Rattle.rule_traits.specs.ValidRules.{IsValidKind};
ghost use Rattle.game_model.specs.World.{new_body};

use activities::Queue;
use actor_table::ActorTable;
use base::NoMemory;
use game_model::{Actor, Body, Builds, Leg};
use motion::advance_leg;
use rule_traits::{Costs, Kind, Mobile, Rules};
use std::alloc::Global;
use std::test::Fail;
use world_units::{CPos, WAngle};
use yaml_lines::Text;

/// The only kind: it moves a unit in a turn.
fn tank(alloc: Global) -> Result<Kind, NoMemory>
    ensures { IfOk result (λ kind. IsValidKind 1 kind) }
{
    Ok(Kind {
        name: Text::from_string(String::from_str(alloc, "tank")?)?,
        health: None,
        mobile: Some(Mobile {
            speed: 1,
            turn: 128,
            costs: Costs {
                clear: 1,
                road: 1,
                rough: 1,
                water: 0,
            },
        }),
        building: false,
        harvester: None,
        refinery: None,
        production: None,
        buildable: None,
        valued: None,
        armament: None,
        reveals: None,
    })
}

/// The rules of that kind alone.
fn rules_of_tank(alloc: Global) -> Result<Rules, NoMemory> {
    let mut kinds = Vec::new(alloc);
    kinds.push(tank(alloc)?)?;
    Rules::of(alloc, kinds)
}

/// A tank on a leg, alone on its map.
fn actor(leg: Leg) -> Actor
    ensures { result ≡ (record {
      id = 1;
      kind = 0;
      cell = record { x = 0; y = 0 };
      body = record
          (new_body 0 0 1) { leg = Some leg };
    }) }
{
    Actor {
        id: 1,
        kind: 0,
        cell: CPos { x: 0, y: 0 },
        body: Body {
            owner: 0,
            facing: WAngle::new(0),
            leg: Some(leg),
            health: 1,
            load: 0,
            reload: 0,
            acts: Queue::empty(),
            builds: Builds::empty(),
        },
    }
}

/// The progress of a tank after a turn on this leg, in one of the eight directions.
fn progress_after(alloc: Global, rules: &Rules, leg: Leg) -> Result<Option<u32>, NoMemory>
    requires { leg.dir < 8 }
{
    let mut t = ActorTable::create(alloc, 1, 1)?;
    t.insert(actor(leg));
    advance_leg(&mut t, rules, 1);
    let left = match t.get(1) {
        Some(a) => a.body.leg,
        None => None,
    };
    Ok(left.map(|leg| leg.progress))
}

/// A leg is 1024 units long straight on, and 1448 across a corner.
#[test]
fn legs_end(rt: HostRuntime) -> Result<(), Fail> {
    let rules = rules_of_tank(rt.alloc())?;
    let rows = [(2, 1023, None), (1, 1023, Some(1024)), (7, 1447, None)];
    for (dir, progress, want) in rows {
        let leg = Leg {
            dir: dir % 8,
            progress,
        };
        let left = progress_after(rt.alloc(), &rules, leg)?;
        assert!(rt; left == want, "at {dir} {progress}");
    }
    Ok(())
}
