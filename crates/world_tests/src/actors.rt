ghost use Rattle.std.specs.Prelude.{◌≡◌};
ghost use Rattle.game_model.specs.World.{new_body};

use activities::Queue;
use actor_table::ActorTable;
use game_model::{Actor, Body, Builds};
use std::test::Fail;
use world_units::{CPos, WAngle};

/// A body of an owner with so much health.
fn body(owner: u8, health: u32) -> Body
    ensures { result ≡ new_body owner 0 health }
{
    Body {
        owner,
        facing: WAngle::new(0),
        leg: None,
        health,
        load: 0,
        reload: 0,
        acts: Queue::empty(),
        builds: Builds::empty(),
    }
}

/// An actor on a cell of the first row.
fn actor(id: u32, x: u8, health: u32) -> Actor
    ensures { result ≡ (record { id = id; kind = 0; cell = record { x = x; y = 0 }; body = new_body 0 0 health }) }
{
    Actor {
        id,
        kind: 0,
        cell: CPos { x, y: 0 },
        body: body(0, health),
    }
}

const FIRST: CPos = CPos { x: 0, y: 0 };

const SECOND: CPos = CPos { x: 1, y: 0 };

const THIRD: CPos = CPos { x: 2, y: 0 };

#[test]
fn found_by_id_and_by_cell(rt: HostRuntime) -> Result<(), Fail> {
    let mut table = ActorTable::create(rt.alloc(), 3, 1)?;
    assert!(rt; table.is_empty() && table.at_cell(FIRST).is_none());
    table.insert(actor(2, 2, 10));
    table.insert(actor(5, 0, 10));
    assert_eq!(rt;
        (table.nth(0), table.nth(1), table.nth(2)),
        (Some(2), Some(5), None)
    );
    assert_eq!(rt;
        (table.at_cell(FIRST), table.at_cell(SECOND)),
        (Some(5), None)
    );
    assert!(rt; table.at_cell(CPos { x: 2, y: 1 }).is_none());
    assert!(rt; table.get(5).is_some_and(|a| a.cell == FIRST) && table.get(3).is_none());
    table.move_to(5, SECOND);
    assert_eq!(rt;
        (table.at_cell(FIRST), table.at_cell(SECOND)),
        (None, Some(5))
    );
    Ok(())
}

#[test]
fn order_is_by_id_after_a_key_is_used_again(rt: HostRuntime) -> Result<(), Fail> {
    let mut table = ActorTable::create(rt.alloc(), 3, 1)?;
    table.insert(actor(1, 0, 10));
    table.insert(actor(2, 1, 10));
    assert!(rt; table.remove(1).is_some_and(|a| a.id == 1) && table.remove(1).is_none());
    table.insert(actor(3, 0, 10));
    assert_eq!(rt;
        (table.nth(0), table.nth(1), table.len()),
        (Some(2), Some(3), 2)
    );
    let copies = table.copy_actors(rt.alloc())?;
    assert_eq!(rt; copies.len(), 2);
    Ok(())
}

#[test]
fn bodies_are_exchanged_and_the_dead_buried(rt: HostRuntime) -> Result<(), Fail> {
    let mut table = ActorTable::create(rt.alloc(), 3, 1)?;
    table.insert(actor(1, 0, 10));
    table.insert(actor(2, 1, 20));
    table.insert(actor(3, 2, 30));
    assert_eq!(rt; table.of_kind(0, 0).len(), 3);
    let mut other = body(7, 0);
    table.swap_body(2, &mut other);
    assert_eq!(rt; (other.owner, other.health), (0, 20));
    assert_eq!(rt;
        (table.of_kind(0, 0).len(), table.of_kind(7, 0).len()),
        (2, 1)
    );
    table.bury();
    assert_eq!(rt;
        (table.nth(0), table.nth(1), table.len()),
        (Some(1), Some(3), 2)
    );
    assert!(rt; table.at_cell(SECOND).is_none() && table.of_kind(7, 0).is_empty());
    assert_eq!(rt; table.at_cell(THIRD), Some(3));
    assert!(rt; table.nth_actor(1).is_some_and(|a| a.body.health == 30));
    Ok(())
}
