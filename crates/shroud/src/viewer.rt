ghost use Rattle.std.specs.Prelude.{◌≡◌, ◌↔◌, IsTrue};
ghost use Rattle.shroud.specs.Viewers.{viewer_of};

use game_model::Actor;
use world_units::CPos;

/// What of an actor decides what it reveals, with its id. An actor of which this is as it was is
/// unchanged: it is not counted anew.
#[derive(Clone, Copy, Debug, Drop)]
pub(crate) struct Viewer {
    /// Its id.
    pub(crate) id: u32,
    /// The number of its kind, which says how far it sees.
    pub(crate) kind: u16,
    /// The client for which it sees, or `game_model::NEUTRAL`.
    pub(crate) owner: u8,
    /// Whether it lives: it has health left.
    pub(crate) alive: bool,
    /// The cell that it holds.
    pub(crate) cell: CPos,
}

impl Viewer {
    /// Of this actor.
    pub(crate) fn of(a: &Actor) -> Viewer
        ensures { result ≡ viewer_of a.now }
    {
        Viewer {
            id: a.id,
            kind: a.kind,
            owner: a.body.owner,
            alive: a.body.health > 0,
            cell: a.cell,
        }
    }

    /// Whether it is of the same actor, unchanged.
    pub(crate) fn is_same(&self, other: &Viewer) -> bool
        ensures { IsTrue result ↔ (self.now ≡ other.now) }
    {
        self.id == other.id
            && self.kind == other.kind
            && self.owner == other.owner
            && self.alive == other.alive
            && self.cell.x == other.cell.x
            && self.cell.y == other.cell.y
    }
}
