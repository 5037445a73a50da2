ghost use Rattle.std.specs.Prelude.{◌≡◌};
ghost use Rattle.c_objects.specs.Objects.{kind_in};

use peer_core::Peer;
use server_core::Server;
use setup_files::Stage;
use tick_core::Game;

/// What an object may hold.
#[derive(Drop)]
pub enum Kept {
    /// The files of a setup, and what they make.
    Setup(Stage),
    /// A world.
    World(Game),
    /// One client of a match.
    Peer(Peer<Game>),
    /// The server of a match.
    Server(Server<Game>),
}

impl Kept {
    /// The number of its kind, at least 1.
    pub(crate) fn kind(&self) -> u32
        ensures { result ≡ kind_in self.now }
    {
        match self {
            Kept::Setup(_) => 1,
            Kept::World(_) => 2,
            Kept::Peer(_) => 3,
            Kept::Server(_) => 4,
        }
    }
}
