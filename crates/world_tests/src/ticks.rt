//! Hashes of both versions of the bare world, and how often actors are hashed.
ghost use Rattle.std.specs.Prelude.{◌≡◌, ◌≤◌, length, IfOk};
ghost use Rattle.world_tests.specs.Idle.{idle_map, idle_start};
ghost use Rattle.tick_core.specs.Game.{game_clients};
ghost use Rattle.rule_traits.specs.ValidRules.{IsValidKind};
ghost use Rattle.game_orders.specs.declared.limits.TheConstants.{MAX_CLIENTS};

use base::{List, NoMemory};
use frame_core::{Maker, Sim};
use game_model::{Map, Ore, Start, Tiles};
use game_orders::{Entry, Frame, MAX_CLIENTS, Orders};
use rule_traits::{Kind, Rules};
use std::alloc::Global;
use std::rc::Rc;
use std::test::Fail;
use tick_core::{Game, GameMaker};
use world_units::{CPos, WAngle};
use yaml_lines::Text;

fn made<M: Maker>(maker: &M, alloc: Global, seed: u32, clients: u8) -> Result<M::World, NoMemory>
    requires least { 1 ≤ clients }
    requires most { clients ≤ MAX_CLIENTS }
    ensures world { IfOk result (λ w. w ≡ M.made maker.now seed clients) }
    ensures clients { IfOk result (λ w. M.World.clients_of w ≡ clients) }
    ensures fresh { IfOk result (λ w. M.World.steps w ≡ 0) }
{
    maker.make(alloc, seed, clients)
}

/// A frame without orders of one client.
fn quiet_frame() -> Frame
    ensures { length result ≡ 1 }
{
    let mut frame = Frame::empty();
    frame.push(Entry::Play(Orders::empty()));
    frame
}

/// The bare world after a frame without orders, with its hashes of both versions.
#[test]
fn a_frame_without_orders(rt: HostRuntime) -> Result<(), Fail> {
    let maker = GameMaker::bare(rt.alloc())?;
    let mut game = made(&maker, rt.alloc(), 5489, 1)?;
    game.step(&quiet_frame());
    assert!(rt; game.hash() == 0x4c4d_c97d_3878_4958);
    assert!(rt; game.hash_1() == 0x2844_b966_ff57_8f05);
    Ok(())
}

/// Where an actor without traits stands at the start, in the first row.
fn start(x: u8) -> Start
    ensures { result ≡ idle_start x }
{
    Start {
        kind: 0,
        owner: 0,
        cell: CPos { x, y: 0 },
        facing: WAngle::new(0),
    }
}

/// A kind without traits.
fn plain_kind(alloc: Global) -> Result<Kind, NoMemory>
    ensures { IfOk result (λ kind. IsValidKind 1 kind) }
{
    Ok(Kind {
        name: Text::from_string(String::from_str(alloc, "rock")?)?,
        health: None,
        mobile: None,
        building: false,
        harvester: None,
        refinery: None,
        production: None,
        buildable: None,
        valued: None,
        armament: None,
        reveals: None,
    })
}

/// A map of three cells, with an actor on each.
fn idle_map(alloc: Global) -> Result<Map, NoMemory>
    ensures { IfOk result (λ map. map ≡ idle_map) }
{
    let mut starts = List::new(alloc);
    starts.push(start(0))?;
    starts.push(start(1))?;
    starts.push(start(2))?;
    Ok(Map {
        width: 3,
        height: 1,
        terrain: Tiles::create(alloc, 3, 1)?,
        ore: Ore::create(alloc, 3, 1)?,
        starts,
        cash: 1_000,
    })
}

/// Three idle actors are hashed once, at the start: a frame without orders hashes none of them.
#[test]
fn idle_actors_are_not_hashed_again(rt: HostRuntime) -> Result<(), Fail> {
    let mut game = idle_game(rt.alloc())?;
    assert!(rt; hashed(&game) == 3);
    game.step(&quiet_frame());
    assert!(rt; hashed(&game) == 3);
    assert!(rt; game.summary().actors == 3);
    Ok(())
}

/// How many actors and cells were hashed for what a game keeps.
fn hashed(game: &Game) -> u64 {
    match game.kept() {
        Some(kept) => kept.mixed(),
        None => 0,
    }
}

/// A game of one client with three idle actors.
fn idle_game(alloc: Global) -> Result<Game, NoMemory>
    ensures clients { IfOk result (λ game. game_clients game ≡ 1) }
    ensures fresh { IfOk result (λ game. game.steps ≡ 0) }
{
    let mut kinds = Vec::new(alloc);
    kinds.push(plain_kind(alloc)?)?;
    let rules = Rules::of(alloc, kinds)?;
    let map = idle_map(alloc)?;
    let maker = GameMaker::new(Rc::new(alloc, rules)?, Rc::new(alloc, map)?);
    maker.make(alloc, 1, 1)
}
