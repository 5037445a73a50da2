ghost use Rattle.std.specs.Prelude.{◌≡◌};
ghost use Rattle.game_model.specs.World.{head_of, world_with};

use crate::actor::ActorList;
use crate::ore::Ore;
use game_orders::PerClient;

/// The cash of each client of a match, by rising number.
pub type Purse = PerClient<u32>;

/// Whether each client of a match has departed, by rising number.
pub type Gone = PerClient<bool>;

/// All of a world but its actors and its ore.
#[derive(Debug, Drop)]
pub struct Head {
    /// The number of turns so far, at most 4,294,967,295.
    pub tick: u32,
    /// The seed of the match's random words.
    pub seed: u32,
    /// The number of random words drawn so far.
    pub drawn: u64,
    /// The id that the next new actor gets. Ids begin at 1.
    pub next_id: u32,
    /// How many turns a frame runs, 1 to [`crate::MAX_PACE`].
    pub pace: u8,
    /// The cash of each client, by rising number, at most [`crate::MAX_CASH`].
    pub cash: Purse,
    /// Whether each client has departed, by rising number.
    pub gone: Gone,
}

/// All that a match has brought about so far.
pub struct World {
    /// The number of turns so far, at most 4,294,967,295.
    pub tick: u32,
    /// The seed of the match's random words.
    pub seed: u32,
    /// The number of random words drawn so far.
    pub drawn: u64,
    /// The id that the next new actor gets. Ids begin at 1.
    pub next_id: u32,
    /// How many turns a frame runs, 1 to [`crate::MAX_PACE`].
    pub pace: u8,
    /// The cash of each client, by rising number, at most [`crate::MAX_CASH`].
    pub cash: Purse,
    /// Whether each client has departed, by rising number.
    pub gone: Gone,
    /// The actors by rising id, at most [`crate::MAX_ACTORS`].
    pub actors: ActorList,
    /// The ore of each cell.
    pub ore: Ore,
}

// By hand, so that what drops one needs no proof of how its parts are dropped.
impl Drop for World {
    fn drop(self) {
        let Self {
            tick: _,
            seed: _,
            drawn: _,
            next_id: _,
            pace: _,
            cash: _,
            gone: _,
            actors: _,
            ore: _,
        } = self;
    }
}

impl World {
    /// All of the world but its actors: the head, and the ore of each cell.
    pub fn into_head_and_ore(self) -> (Head, Ore)
        ensures head { result.0 ≡ head_of self }
        ensures ore { result.1 ≡ self.ore }
    {
        let Self {
            tick,
            seed,
            drawn,
            next_id,
            pace,
            cash,
            gone,
            actors: _,
            ore,
        } = self;
        let head = Head {
            tick,
            seed,
            drawn,
            next_id,
            pace,
            cash,
            gone,
        };
        (head, ore)
    }
}

impl Head {
    /// The world of this head with these actors and this ore. Nothing is copied but the clients.
    pub fn world_with(&self, actors: ActorList, ore: Ore) -> World
        ensures { result ≡ world_with self.now actors ore }
    {
        World {
            tick: self.tick,
            seed: self.seed,
            drawn: self.drawn,
            next_id: self.next_id,
            pace: self.pace,
            cash: self.cash.copy(),
            gone: self.gone.copy(),
            actors,
            ore,
        }
    }
}
