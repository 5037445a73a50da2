ghost use Rattle.std.specs.Prelude.{◌≡◌};

use frame_core::{Sim, Summary};
use game_orders::Frame;
use replay_run::FirstHash;
use std::marker::Model;
use tick_core::Game;

/// A game with the hash of the first version, that without the pace. Replays are run over it.
pub struct MarkedGame {
    game: Game,
}

// By hand, so that what drops one needs no proof of how its parts are dropped.
impl Drop for MarkedGame {
    fn drop(self) {
        let Self { game: _ } = self;
    }
}

impl Model for MarkedGame {
    ghost use Rattle.tick_core.specs.Game.{GameState};

    ghost Value = { GameState };

    ghost view = { λ marked. marked.game };
}

impl MarkedGame {
    /// This game.
    pub fn of(game: Game) -> MarkedGame
        ensures { result ≡ game }
    {
        MarkedGame { game }
    }
}

impl Sim for MarkedGame {
    ghost use Rattle.tick_core.specs.Game.{game_after, game_clients, game_hash, game_steps};
    ghost use Rattle.tick_core.specs.Game.{game_summary};

    ghost clients_of = { game_clients };

    ghost steps = { game_steps };

    ghost after = { game_after };

    ghost hash_of = { game_hash };

    ghost summary_of = { game_summary };

    fn clients(&self) -> u8 {
        self.game.clients()
    }

    fn step(&mut self, f: &Frame) {
        self.game.step(f);
    }

    fn hash(&self) -> u64 {
        self.game.hash()
    }

    fn summary(&self) -> Summary {
        self.game.summary()
    }
}

impl FirstHash for MarkedGame {
    ghost use Rattle.replay_commands.specs.Replays.{game_first_hash};

    ghost first_hash_of = { game_first_hash };

    fn first_hash(&self) -> u64 {
        self.game.hash_1()
    }
}
