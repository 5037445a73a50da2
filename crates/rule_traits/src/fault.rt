ghost use Rattle.std.specs.Prelude.{◌≡◌};

use base::NoMemory;
use std::alloc::AllocFailed;
use thiserror::Error;
use yaml_lines::Place;

/// Why a forest has no typed rules: the first fault in preorder. Each place is that at which the
/// node at fault was read last.
#[derive(Debug, Drop, Error)]
pub enum RuleFault {
    /// Comes at a field whose value is not of its form.
    #[error("line {} has a value that can't be read", .place.line)]
    BadValue {
        /// The place of the field's node.
        place: Place,
    },
    /// Comes at a field whose value is of its form and outside its range.
    #[error("line {} has a value outside its range", .place.line)]
    OutOfRange {
        /// The place of the field's node.
        place: Place,
    },
    /// Comes at a trait that lacks a field that it needs: at a `Production` without `Produces`.
    #[error("line {} lacks a field that its trait needs", .place.line)]
    MissingField {
        /// The place of the trait's node.
        place: Place,
    },
    /// Comes at a field `Needs` where one of its names is no kind of the forest.
    #[error("line {} names a kind that isn't there", .place.line)]
    UnknownKindName {
        /// The place of the field's node.
        place: Place,
    },
    /// Comes at the kind that follows `MAX_KINDS` kinds.
    #[error("line {} has a kind too many", .place.line)]
    TooManyKinds {
        /// The place of the kind's node.
        place: Place,
    },
    /// Out of memory. It may come in place of any other answer.
    #[error("out of memory")]
    NoMemory,
}

impl RuleFault {
    ghost use Rattle.rule_traits.specs.Fault.{cause_of, place_of};

    /// The cause: the name of its variant.
    pub fn cause(&self) -> &'static str
        ensures { result.now ≡ cause_of self.now }
    {
        match self {
            RuleFault::BadValue { .. } => "BadValue",
            RuleFault::OutOfRange { .. } => "OutOfRange",
            RuleFault::MissingField { .. } => "MissingField",
            RuleFault::UnknownKindName { .. } => "UnknownKindName",
            RuleFault::TooManyKinds { .. } => "TooManyKinds",
            RuleFault::NoMemory => "NoMemory",
        }
    }

    /// The place of the node at fault. `None` comes exactly where it is out of memory.
    pub fn place(&self) -> Option<Place>
        ensures { result ≡ place_of self.now }
    {
        match self {
            RuleFault::BadValue { place }
            | RuleFault::OutOfRange { place }
            | RuleFault::MissingField { place }
            | RuleFault::UnknownKindName { place }
            | RuleFault::TooManyKinds { place } => Some(*place),
            RuleFault::NoMemory => None,
        }
    }
}

impl From<NoMemory> for RuleFault {
    ghost use Rattle.rule_traits.specs.declared.fault.RuleFault.TheVariants.{NoMemory};

    ghost from_gives = { λ _ fault. fault ≡ NoMemory };

    fn from(_error: NoMemory) -> Self {
        RuleFault::NoMemory
    }
}

impl<T: Drop> From<AllocFailed<T>> for RuleFault {
    ghost use Rattle.rule_traits.specs.declared.fault.RuleFault.TheVariants.{NoMemory};

    ghost from_gives = { λ _ fault. fault ≡ NoMemory };

    fn from(_error: AllocFailed<T>) -> Self {
        RuleFault::NoMemory
    }
}
