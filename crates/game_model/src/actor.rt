ghost use Rattle.std.specs.Prelude.{◌≡◌};

use crate::builds::Builds;
use activities::Queue;
use base::List;
use world_units::{CPos, WAngle};

/// The way from a cell to a neighbour, on which a moving actor is. It holds the cell to which the
/// leg leads.
#[derive(Clone, Copy, Debug, Drop)]
pub struct Leg {
    /// The direction, below `world_units::DIRECTIONS`.
    pub dir: u8,
    /// The units that it has gone, below the length of the leg.
    pub progress: u32,
}

/// What an actor is but its id, its kind and its cell.
#[derive(Debug, Drop)]
pub struct Body {
    /// The client that owns it, or [`crate::NEUTRAL`].
    pub owner: u8,
    /// Which way it faces.
    pub facing: WAngle,
    /// The leg that it is on, if it is on one.
    pub leg: Option<Leg>,
    /// Its hit points. At 0 it is removed at the end of the turn.
    pub health: u32,
    /// The bales of ore that it holds.
    pub load: u16,
    /// The turns until it can fire again.
    pub reload: u16,
    /// What it is doing, and what it is to do then.
    pub acts: Queue,
    /// What it is to build.
    pub builds: Builds,
}

impl Body {
    /// The same body once more.
    pub fn copy(&self) -> Body
        ensures { result ≡ self.now }
    {
        Body {
            owner: self.owner,
            facing: self.facing,
            leg: self.leg,
            health: self.health,
            load: self.load,
            reload: self.reload,
            acts: self.acts.copy(),
            builds: self.builds.copy(),
        }
    }
}

/// One actor of a world: a unit or a building.
#[derive(Debug)]
pub struct Actor {
    /// Its id, at least 1, which no other actor of the match ever has.
    pub id: u32,
    /// The number of its kind, from 0.
    pub kind: u16,
    /// The cell that it holds. No other actor holds it.
    pub cell: CPos,
    /// What else it is.
    pub body: Body,
}

// By hand, so that what drops one needs no proof of how its parts are dropped.
impl Drop for Actor {
    fn drop(self) {
        let Self {
            id: _,
            kind: _,
            cell: _,
            body: _,
        } = self;
    }
}

impl Actor {
    /// The same actor once more.
    pub fn copy(&self) -> Actor
        ensures { result ≡ self.now }
    {
        Actor {
            id: self.id,
            kind: self.kind,
            cell: self.cell,
            body: self.body.copy(),
        }
    }
}

/// Actors by rising id.
pub type ActorList = List<Actor>;
