ghost use Rattle.std.specs.Prelude.{◌≡◌};

use crate::place::Place;
use base::NoMemory;
use thiserror::Error;

/// Why a text has no forest: what the earliest line at fault has. Where one line has several, the
/// order is `TooManyLines`, `NotUtf8`, `LineTooLong`, `BadIndent`, `TooDeep`. A line is kept where
/// more than blanks and a comment stands in it.
#[derive(Debug, Drop, Error)]
pub enum LineFault {
    /// Comes at a line that isn't UTF-8, kept or not.
    #[error("line {} isn't UTF-8", .place.line)]
    NotUtf8 {
        /// The line at fault.
        place: Place,
    },
    /// Comes at a kept line whose level is more than one above that of the kept line before it, and
    /// at a first kept line whose level is above 0.
    #[error("line {} is indented too far", .place.line)]
    BadIndent {
        /// The line at fault.
        place: Place,
    },
    /// Comes at a kept line at level `MAX_LEVELS`, which follows one at the deepest level.
    #[error("line {} is too deep", .place.line)]
    TooDeep {
        /// The line at fault.
        place: Place,
    },
    /// Comes at a line of more than `MAX_LINE_BYTES` bytes before its LF, kept or not.
    #[error("line {} is too long", .place.line)]
    LineTooLong {
        /// The line at fault.
        place: Place,
    },
    /// Comes at line `MAX_LINES` + 1, whatever stands in it.
    #[error("line {} is a line too many", .place.line)]
    TooManyLines {
        /// The line at fault.
        place: Place,
    },
    /// Out of memory. It may come in place of any other answer.
    #[error("out of memory")]
    NoMemory,
}

impl LineFault {
    ghost use Rattle.yaml_lines.specs.Fault.{place_of, cause_of};

    /// The place at fault. `NoMemory` alone has none.
    pub fn place(&self) -> Option<Place>
        ensures { result ≡ place_of self.now }
    {
        match self {
            LineFault::NotUtf8 { place }
            | LineFault::BadIndent { place }
            | LineFault::TooDeep { place }
            | LineFault::LineTooLong { place }
            | LineFault::TooManyLines { place } => Some(*place),
            LineFault::NoMemory => None,
        }
    }

    /// The cause as it is printed: the name of the variant.
    pub fn cause(&self) -> &'static str
        ensures { result.now ≡ cause_of self.now }
    {
        match self {
            LineFault::NotUtf8 { .. } => "NotUtf8",
            LineFault::BadIndent { .. } => "BadIndent",
            LineFault::TooDeep { .. } => "TooDeep",
            LineFault::LineTooLong { .. } => "LineTooLong",
            LineFault::TooManyLines { .. } => "TooManyLines",
            LineFault::NoMemory => "NoMemory",
        }
    }
}

impl From<NoMemory> for LineFault {
    ghost use Rattle.yaml_lines.specs.declared.fault.LineFault.TheVariants.{NoMemory};

    ghost from_gives = { λ _ fault. fault ≡ NoMemory };

    fn from(_error: NoMemory) -> Self {
        LineFault::NoMemory
    }
}
