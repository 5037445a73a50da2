use game_model::{Actor, Head, Ore};
use game_save::LendsWorld;
use std::marker::Model;
use tick_core::Game;

/// The world of a game, as the game lends it.
#[derive(Drop)]
pub(crate) struct GameWorld<'a> {
    pub(crate) game: &'a Game,
}

impl<'a> LendsWorld for GameWorld<'a> {
    ghost world_of = { λ lent. lent.game.now.world };

    fn head(&self) -> &Head {
        self.game.head()
    }

    fn actor_count(&self) -> usize {
        self.game.actor_count()
    }

    fn actor_at(&self, i: usize) -> Option<&Actor> {
        self.game.actor_at(i)
    }

    fn ore(&self) -> &Ore {
        self.game.ore()
    }
}
