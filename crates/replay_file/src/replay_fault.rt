ghost use Rattle.std.specs.Prelude.{◌≡◌};

use crate::limits::{RULES_AT, VERSION_AT};
use base::NoMemory;
use thiserror::Error;

/// Why bytes are no replay: the first fault from the left. Places are counted in bytes from 0.
#[derive(Clone, Copy, Debug, PartialEq, Eq, Error)]
pub enum ReplayFault {
    /// The first four bytes aren't there, or aren't `LSRP`.
    #[error("this is no replay")]
    BadMagic,
    /// The version is neither 1 nor 2.
    #[error("the version of the replay is unknown")]
    BadVersion,
    /// A field runs past the end of the bytes, also where they end without an end.
    #[error("byte {at}: the replay is cut off")]
    Torn {
        /// The place of the version, of the rules number in the rest of the header, or of the part.
        at: u64,
    },
    /// A field is bad.
    #[error("byte {at}: the replay has a bad record")]
    BadRecord {
        /// The place of the number of clients, or of the part.
        at: u64,
    },
    /// Bytes follow the end.
    #[error("byte {at}: bytes follow the end of the replay")]
    TrailingBytes {
        /// The place of the first of them.
        at: u64,
    },
    /// The replay is of a match under other rules.
    #[error("the replay has the rules {file:016x}, and these are {here:016x}")]
    OtherRules {
        /// The rules number of the replay.
        file: u64,
        /// The rules number of the caller.
        here: u64,
    },
    /// Out of memory. It may come in place of any other answer.
    #[error("out of memory")]
    NoMemory,
}

impl ReplayFault {
    ghost use Rattle.replay_file.specs.Fault.{cause_of, place_of};

    /// The cause: the name of its variant.
    pub fn cause(&self) -> &'static str
        ensures { result.now ≡ cause_of self.now }
    {
        match self {
            ReplayFault::BadMagic => "BadMagic",
            ReplayFault::BadVersion => "BadVersion",
            ReplayFault::Torn { .. } => "Torn",
            ReplayFault::BadRecord { .. } => "BadRecord",
            ReplayFault::TrailingBytes { .. } => "TrailingBytes",
            ReplayFault::OtherRules { .. } => "OtherRules",
            ReplayFault::NoMemory => "NoMemory",
        }
    }

    /// The place among the bytes, from 0. `None` comes exactly where it is out of memory.
    pub fn place(&self) -> Option<u64>
        ensures { result ≡ place_of self.now }
    {
        match self {
            ReplayFault::BadMagic => Some(0),
            ReplayFault::BadVersion => Some(VERSION_AT),
            ReplayFault::Torn { at }
            | ReplayFault::BadRecord { at }
            | ReplayFault::TrailingBytes { at } => Some(*at),
            ReplayFault::OtherRules { .. } => Some(RULES_AT),
            ReplayFault::NoMemory => None,
        }
    }
}

impl From<NoMemory> for ReplayFault {
    ghost use Rattle.replay_file.specs.declared.replay_fault.ReplayFault.TheVariants.{NoMemory};

    ghost from_gives = { λ _ fault. fault ≡ NoMemory };

    fn from(_error: NoMemory) -> Self {
        ReplayFault::NoMemory
    }
}
