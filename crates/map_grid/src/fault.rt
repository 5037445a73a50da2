ghost use Rattle.std.specs.Prelude.{◌≡◌};

use base::NoMemory;
use std::alloc::AllocFailed;
use thiserror::Error;
use yaml_lines::Place;

/// Why a forest has no map: the first fault in the order in which fields are read. Each place is
/// that at which the node at fault was read last.
#[derive(Debug, Drop, Error)]
pub enum MapFault {
    /// Comes at a field that isn't as it must be, and where one that must be there is missing.
    #[error("line {} has a value that a map can't have", .place.line)]
    BadField {
        /// The place of the field's node. Where `Size` is missing it is line 0, and where an
        /// actor's `Location` is missing it is the actor's.
        place: Place,
    },
    /// Comes at a row whose key is no row of the map, which has too few or too many characters, or
    /// whose character is no ore.
    #[error("line {} is no row of the map", .place.line)]
    BadRow {
        /// The place of the row's node.
        place: Place,
    },
    /// Comes at a row of terrain with a character that is no terrain's.
    #[error("line {} has a terrain that isn't known", .place.line)]
    UnknownTerrain {
        /// The place of the row's node.
        place: Place,
    },
    /// Comes at an actor whose kind the rules haven't.
    #[error("line {} has an actor of a kind that the rules haven't", .place.line)]
    UnknownKind {
        /// The place of the actor's node.
        place: Place,
    },
    /// Comes at an actor whose cell an earlier one has.
    #[error("line {} has an actor on a cell that another has", .place.line)]
    CellTaken {
        /// The place of the actor's node.
        place: Place,
    },
    /// Comes at an `Owner` that is neither a client's number nor `Neutral`.
    #[error("line {} has an owner that no match has", .place.line)]
    BadOwner {
        /// The place of the field's node.
        place: Place,
    },
    /// Comes at the actor that follows `MAX_ACTORS` actors.
    #[error("line {} has an actor too many", .place.line)]
    TooManyActors {
        /// The place of the actor's node.
        place: Place,
    },
    /// Out of memory. It may come in place of any other answer.
    #[error("out of memory")]
    NoMemory,
}

impl MapFault {
    ghost use Rattle.map_grid.specs.Fault.{cause_of, place_of};

    /// The cause: the name of its variant.
    pub fn cause(&self) -> &'static str
        ensures { result.now ≡ cause_of self.now }
    {
        match self {
            MapFault::BadField { .. } => "BadField",
            MapFault::BadRow { .. } => "BadRow",
            MapFault::UnknownTerrain { .. } => "UnknownTerrain",
            MapFault::UnknownKind { .. } => "UnknownKind",
            MapFault::CellTaken { .. } => "CellTaken",
            MapFault::BadOwner { .. } => "BadOwner",
            MapFault::TooManyActors { .. } => "TooManyActors",
            MapFault::NoMemory => "NoMemory",
        }
    }

    /// The place of the node at fault. `None` comes exactly where it is out of memory.
    pub fn place(&self) -> Option<Place>
        ensures { result ≡ place_of self.now }
    {
        match self {
            MapFault::BadField { place }
            | MapFault::BadRow { place }
            | MapFault::UnknownTerrain { place }
            | MapFault::UnknownKind { place }
            | MapFault::CellTaken { place }
            | MapFault::BadOwner { place }
            | MapFault::TooManyActors { place } => Some(*place),
            MapFault::NoMemory => None,
        }
    }
}

impl From<NoMemory> for MapFault {
    ghost use Rattle.map_grid.specs.declared.fault.MapFault.TheVariants.{NoMemory};

    ghost from_gives = { λ _ fault. fault ≡ NoMemory };

    fn from(_error: NoMemory) -> Self {
        MapFault::NoMemory
    }
}

impl<T: Drop> From<AllocFailed<T>> for MapFault {
    ghost use Rattle.map_grid.specs.declared.fault.MapFault.TheVariants.{NoMemory};

    ghost from_gives = { λ _ fault. fault ≡ NoMemory };

    fn from(_error: AllocFailed<T>) -> Self {
        MapFault::NoMemory
    }
}
