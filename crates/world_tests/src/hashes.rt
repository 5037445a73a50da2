//! Published values of FNV-1a, and a hasher that is told of changes. Hashes of worlds of games are
//! shown by recorded command lines in the crate `case_runs`.

ghost use Rattle.game_model.specs.World.{AreClients};

use activities::Queue;
use base::List;
use game_model::{Actor, Body, Builds, Gone, Head, Ore, Purse};
use std::test::Fail;
use sync_hash::{Hasher, fnv, world_hash, world_hash_1};
use world_units::{CPos, WAngle};

/// Vectors that the authors of FNV published.
#[test]
fn published_vectors(rt: HostRuntime) {
    assert!(rt; fnv(b"") == 0xcbf2_9ce4_8422_2325);
    assert!(rt; fnv(b"a") == 0xaf63_dc4c_8601_ec8c);
    assert!(rt; fnv(b"foobar") == 0x8594_4171_f739_67e8);
}

/// The head of the opening world of one client and seed 5489, with pace 1.
fn opening_head() -> Head
    ensures { AreClients result.cash result.gone }
{
    Head {
        tick: 0,
        seed: 5489,
        drawn: 0,
        next_id: 1,
        pace: 1,
        cash: Purse::create(1, 1_000),
        gone: Gone::create(1, false),
    }
}

/// An actor of the kind 1.
fn actor() -> Actor {
    Actor {
        id: 2,
        kind: 1,
        cell: CPos { x: 0, y: 0 },
        body: Body {
            owner: 0,
            facing: WAngle::new(768),
            leg: None,
            health: 5,
            load: 0,
            reload: 0,
            acts: Queue::empty(),
            builds: Builds::empty(),
        },
    }
}

/// A hasher of the bare world is told of an actor, and that it is gone, and of ore, and that none
/// is left. What it hashes is counted.
#[test]
fn told_of_changes(rt: HostRuntime) -> Result<(), Fail> {
    let head = opening_head();
    let world = head.world_with(List::new(rt.alloc()), Ore::create(rt.alloc(), 1, 1)?);
    let want = 0xf459_8944_3355_69d3;
    assert!(rt; world_hash(&world) == want);
    assert!(rt; world_hash_1(&world) == 0xe284_473b_a232_41b0);
    let mut hasher = Hasher::create(rt.alloc(), 1, 1, &world)?;
    hasher.actor_set(&actor());
    assert!(rt; hasher.hash(&head) != want && hasher.mixed() == 1);
    hasher.actor_gone(2);
    hasher.ore_set(CPos { x: 0, y: 0 }, 5);
    assert!(rt; hasher.hash(&head) != want && hasher.mixed() == 2);
    hasher.ore_set(CPos { x: 0, y: 0 }, 0);
    assert!(rt; hasher.hash(&head) == want && hasher.mixed() == 2);
    Ok(())
}
