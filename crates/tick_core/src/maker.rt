ghost use Rattle.std.specs.Prelude.{◌≡◌, IfOk};
ghost use Rattle.game_model.specs.Setup.{bare_map, bare_setup};
ghost use Rattle.game_model.specs.ValidMap.{IsSetup};
ghost use Rattle.game_model.specs.ValidWorld.{IsValidWorld};

use crate::game::Game;
use crate::hashing::Hashing;
use base::{List, NoMemory};
use frame_core::Maker;
use game_model::{BARE_CASH, Map, Ore, Tiles, World};
use rule_traits::Rules;
use std::alloc::Global;
use std::marker::Model;
use std::rc::Rc;

/// The map of a match without one: one clear cell, no ore, no actors, and [`BARE_CASH`] for each
/// client. Out of memory is the only error.
pub fn bare_map(alloc: Global) -> Result<Map, NoMemory>
    ensures { IfOk result (λ map. map ≡ bare_map) }
{
    Ok(Map {
        width: 1,
        height: 1,
        terrain: Tiles::create(alloc, 1, 1)?,
        ore: Ore::create(alloc, 1, 1)?,
        starts: List::new(alloc),
        cash: BARE_CASH,
    })
}

/// Makes games of matches over the same rules and the same map.
#[derive(Drop)]
pub struct GameMaker {
    rules: Rc<Rules>,
    map: Rc<Map>,
    hashing: Hashing,
}

impl Model for GameMaker {
    ghost use Rattle.game_model.specs.Setup.{Setup};
    ghost use Rattle.game_model.specs.ValidMap.{IsSetup};

    ghost Value = { Setup };

    ghost view = { λ maker. record { rules = maker.rules.value; map = maker.map.value } };

    ghost invariant = { λ maker. IsSetup (record { rules = maker.rules.value; map = maker.map.value }) };
}

impl GameMaker {
    /// Over valid rules and a map that keeps what maps keep for these rules.
    pub fn new(rules: Rc<Rules>, map: Rc<Map>) -> GameMaker
        requires { IsSetup (record { rules = rules.value; map = map.value }) }
        ensures { result ≡ (record { rules = rules.value; map = map.value }) }
    {
        GameMaker {
            rules,
            map,
            hashing: Hashing::Kept,
        }
    }

    /// The same maker, but the games that it opens keep nothing for their hash: a step of theirs
    /// costs less, and a hash costs all actors and cells. So it is for games whose hash is seldom
    /// asked for. Out of memory is its only error.
    pub fn without_kept_hashes(&self) -> Result<GameMaker, NoMemory>
        ensures { IfOk result (λ maker. maker ≡ self.now) }
    {
        Ok(GameMaker {
            rules: self.rules.clone()?,
            map: self.map.clone()?,
            hashing: Hashing::Asked,
        })
    }

    /// Without files: over no kinds and the bare map, which has one clear cell and nothing on it.
    /// Out of memory is the only error.
    pub fn bare(alloc: Global) -> Result<GameMaker, NoMemory>
        ensures { IfOk result (λ maker. maker ≡ bare_setup) }
    {
        let rules = Rules::of(alloc, Vec::new(alloc))?;
        let map = bare_map(alloc)?;
        Ok(GameMaker {
            rules: Rc::new(alloc, rules)?,
            map: Rc::new(alloc, map)?,
            hashing: Hashing::Kept,
        })
    }

    /// The rules that its games share.
    pub fn rules(&self) -> &Rc<Rules>
        ensures { result.now.value ≡ self.now.rules }
    {
        let _map = &self.map;
        &self.rules
    }

    /// The map that its games share.
    pub fn map(&self) -> &Rc<Map>
        ensures { result.now.value ≡ self.now.map }
    {
        let _rules = &self.rules;
        &self.map
    }

    /// The game that goes on from a world that is valid after so many frames, as [`Game::resume`]
    /// has it. Out of memory is its only error.
    pub fn resume(&self, alloc: Global, frames: u32, w: &World) -> Result<Game, NoMemory>
        requires { IsValidWorld self.now frames w.now }
        ensures { IfOk result (λ game. game ≡ (record { setup = self.now; world = w.now; steps = frames })) }
    {
        Game::resume(alloc, self.rules.clone()?, self.map.clone()?, frames, w)
    }
}

impl Maker for GameMaker {
    ghost use Rattle.tick_core.specs.Game.{game_start};

    type World = Game;

    ghost made = { λ setup seed clients. game_start setup seed clients };

    #[tactic(auto, unfolding(game_model::specs::World::start_of))]
    fn make(&self, alloc: Global, seed: u32, clients: u8) -> Result<Game, NoMemory> {
        let (rules, map) = (self.rules.clone()?, self.map.clone()?);
        Game::begin(alloc, rules, map, seed, clients, self.hashing)
    }
}
