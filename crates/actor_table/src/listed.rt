ghost use Rattle.std.specs.Prelude.{◌≡◌};
ghost use Rattle.actor_table.specs.Kinds.{rank_of, listed_as, IsEntry};

use game_model::Actor;

/// How many numbers a kind can have.
pub(crate) const KIND_NUMBERS: u64 = 65_536;

/// How many ids there can be.
pub(crate) const ID_NUMBERS: u64 = 4_294_967_296;

/// An actor as an index lists it: by its owner, by its kind, and then by id.
#[derive(Clone, Copy, Debug, Drop)]
pub struct Listed {
    /// The client that owns it, or `game_model::NEUTRAL`.
    pub owner: u8,
    /// The number of its kind, from 0.
    pub kind: u16,
    /// Its id.
    pub id: u32,
}

impl Listed {
    /// An actor as an index lists it.
    pub(crate) fn of(a: &Actor) -> Listed
        ensures value { result ≡ listed_as a.now }
        ensures fits { IsEntry result }
    {
        let (kind, id) = (a.kind, a.id);
        Listed {
            owner: a.body.owner,
            kind,
            id,
        }
    }

    /// A number by which entries are sorted: by owner, then by kind, then by id.
    pub(crate) fn rank(&self) -> u64
        ensures { result ≡ rank_of self.now }
    {
        (u64::from(self.owner) * KIND_NUMBERS + u64::from(self.kind)) * ID_NUMBERS
            + u64::from(self.id)
    }
}
