ghost use Rattle.std.specs.Prelude.{◌≡◌, Some};
ghost use Rattle.std.specs.Option.{option_copied};
ghost use Rattle.c_worlds.specs.Held.{game_in, made_in};

use c_objects::Kept;
use setup_files::Made;
use tick_core::Game;

/// The game of a world, a peer or a server. `None` exactly where a setup is held.
pub fn game_of(kept: &Kept) -> Option<&Game>
    ensures { option_copied result ≡ game_in (Some kept.now) }
{
    match kept {
        Kept::World(game) => Some(game),
        Kept::Peer(peer) => Some(peer.sim()),
        Kept::Server(server) => Some(server.sim()),
        Kept::Setup(_) => None,
    }
}

/// What the files of a setup make. `None` exactly where something else is held, or the files were
/// not read without a fault.
pub fn made_of(kept: &Kept) -> Option<&Made>
    ensures { option_copied result ≡ made_in (Some kept.now) }
{
    match kept {
        Kept::Setup(stage) => stage.made(),
        Kept::World(_) | Kept::Peer(_) | Kept::Server(_) => None,
    }
}
