ghost use Rattle.std.specs.Prelude.{◌≡◌};

use base::NoMemory;
use std::alloc::AllocFailed;
use thiserror::Error;
use yaml_lines::Place;

/// Why files have no resolved forest: the first fault in the order of resolving. Each place is that
/// at which the node at hand was read last.
#[derive(Debug, Drop, Error)]
pub enum MergeFault {
    /// Comes at an `Inherits` whose value is the key of no top-level node, or begins with `-`.
    #[error("line {} inherits a name that isn't there", .place.line)]
    NoParent {
        /// The place of the `Inherits` node.
        place: Place,
    },
    /// Comes at an `Inherits` whose value names a top-level node that is being resolved.
    #[error("line {} closes a circle of parents", .place.line)]
    Cycle {
        /// The place of the `Inherits` node.
        place: Place,
    },
    /// Comes at a removal where no node of the list so far has the key that is removed.
    #[error("line {} removes a node that isn't there", .place.line)]
    NothingToRemove {
        /// The place of the removal.
        place: Place,
    },
    /// Comes at a node with which a list that is being resolved gets more than `MAX_LIST_NODES`
    /// nodes, or the forest more than `MAX_FOREST_NODES`.
    #[error("line {} makes too large a list", .place.line)]
    TooLarge {
        /// The place of the node that was taken in last; for the forest that of the top-level node.
        place: Place,
    },
    /// Comes at an `Inherits` where the path of parents has `MAX_PATH` names already, or where an
    /// inherited node would stand at level `MAX_LEVELS`.
    #[error("line {} goes too deep", .place.line)]
    TooDeep {
        /// The place of the `Inherits` node.
        place: Place,
    },
    /// Out of memory. It may come in place of any other answer.
    #[error("out of memory")]
    NoMemory,
}

impl MergeFault {
    ghost use Rattle.yaml_merge.specs.Fault.{place_of, cause_of};

    /// The place at fault. `NoMemory` alone has none.
    pub fn place(&self) -> Option<Place>
        ensures { result ≡ place_of self.now }
    {
        match self {
            MergeFault::NoParent { place }
            | MergeFault::Cycle { place }
            | MergeFault::NothingToRemove { place }
            | MergeFault::TooLarge { place }
            | MergeFault::TooDeep { place } => Some(*place),
            MergeFault::NoMemory => None,
        }
    }

    /// The cause as it is printed: the name of the variant.
    pub fn cause(&self) -> &'static str
        ensures { result.now ≡ cause_of self.now }
    {
        match self {
            MergeFault::NoParent { .. } => "NoParent",
            MergeFault::Cycle { .. } => "Cycle",
            MergeFault::NothingToRemove { .. } => "NothingToRemove",
            MergeFault::TooLarge { .. } => "TooLarge",
            MergeFault::TooDeep { .. } => "TooDeep",
            MergeFault::NoMemory => "NoMemory",
        }
    }
}

impl From<NoMemory> for MergeFault {
    ghost use Rattle.yaml_merge.specs.declared.fault.MergeFault.TheVariants.{NoMemory};

    ghost from_gives = { λ _ fault. fault ≡ NoMemory };

    fn from(_error: NoMemory) -> Self {
        MergeFault::NoMemory
    }
}

impl<T: Drop> From<AllocFailed<T>> for MergeFault {
    ghost use Rattle.yaml_merge.specs.declared.fault.MergeFault.TheVariants.{NoMemory};

    ghost from_gives = { λ _ fault. fault ≡ NoMemory };

    fn from(_error: AllocFailed<T>) -> Self {
        MergeFault::NoMemory
    }
}
