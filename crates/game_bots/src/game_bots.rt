ghost use Rattle.std.specs.Prelude.{◌<◌};
ghost use Rattle.tick_core.specs.Game.{game_clients};

use crate::game_actors::GameActors;
use base::NoMemory;
use bot_player::bot_orders_from;
use bots::Bots;
use game_orders::Orders;
use tick_core::Game;

/// Bots of a game, which order by the game's world alone. They are never out of memory.
#[derive(Drop)]
pub struct GameBots;

impl Bots<Game> for GameBots {
    ghost use Rattle.game_bots.specs.GameOrders.{game_orders};

    ghost orders_of = { λ bots game c. game_orders game c };

    fn orders(&self, sim: &Game, c: u8) -> Result<Orders, NoMemory> {
        Ok(bot_orders_from(sim.rules(), &sim.head().cash, &GameActors { game: sim }, c))
    }
}
