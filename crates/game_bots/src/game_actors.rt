use game_model::Actor;
use shroud::LendsActors;
use tick_core::Game;

/// The actors of a game, as it lends them.
#[derive(Drop)]
pub struct GameActors<'a> {
    /// The game.
    pub game: &'a Game,
}

impl<'a> LendsActors for GameActors<'a> {
    ghost actors_of = { λ lent. lent.game.now.world.actors };

    fn actor_count(&self) -> usize {
        self.game.actor_count()
    }

    fn actor_at(&self, i: usize) -> Option<&Actor> {
        self.game.actor_at(i)
    }
}
