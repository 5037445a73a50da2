ghost use Rattle.std.specs.Prelude.{◌≡◌};

use crate::limits::{RULES_AT, VERSION_AT};
use base::NoMemory;
use thiserror::Error;

/// Why bytes are no save: the first fault from the left. Places are counted in bytes from 0.
#[derive(Clone, Copy, Debug, PartialEq, Eq, Error)]
pub enum SaveFault {
    /// The first four bytes aren't there, or aren't `LSSV`.
    #[error("this is no save")]
    BadMagic,
    /// The version is not 1.
    #[error("the version of the save is unknown")]
    BadVersion,
    /// The save is of a match under other rules.
    #[error("the save has the rules {file:016x}, and these are {here:016x}")]
    OtherRules {
        /// The rules number of the save.
        file: u64,
        /// The rules number of the caller.
        here: u64,
    },
    /// A field runs past the end of the bytes.
    #[error("byte {at}: the save is cut off")]
    Torn {
        /// The place of the field.
        at: u64,
    },
    /// A field has a value that no valid world has with the fields before it.
    #[error("byte {at}: the save has no valid world")]
    BadWorld {
        /// The place of the field.
        at: u64,
    },
    /// Bytes follow the last field.
    #[error("byte {at}: bytes follow the end of the save")]
    TrailingBytes {
        /// The place of the first of them.
        at: u64,
    },
    /// Out of memory. It may come in place of any other answer.
    #[error("out of memory")]
    NoMemory,
}

impl SaveFault {
    ghost use Rattle.game_save.specs.Fault.{cause_of, place_of};

    /// The cause: the name of its variant.
    pub fn cause(&self) -> &'static str
        ensures { result.now ≡ cause_of self.now }
    {
        match self {
            SaveFault::BadMagic => "BadMagic",
            SaveFault::BadVersion => "BadVersion",
            SaveFault::OtherRules { .. } => "OtherRules",
            SaveFault::Torn { .. } => "Torn",
            SaveFault::BadWorld { .. } => "BadWorld",
            SaveFault::TrailingBytes { .. } => "TrailingBytes",
            SaveFault::NoMemory => "NoMemory",
        }
    }

    /// The place among the bytes, from 0. `None` comes exactly where it is out of memory.
    pub fn place(&self) -> Option<u64>
        ensures { result ≡ place_of self.now }
    {
        match self {
            SaveFault::BadMagic => Some(0),
            SaveFault::BadVersion => Some(VERSION_AT),
            SaveFault::OtherRules { .. } => Some(RULES_AT),
            SaveFault::Torn { at } | SaveFault::BadWorld { at } | SaveFault::TrailingBytes { at } =>
                { Some(*at) }
            SaveFault::NoMemory => None,
        }
    }
}

impl From<NoMemory> for SaveFault {
    ghost use Rattle.game_save.specs.declared.save_fault.SaveFault.TheVariants.{NoMemory};

    ghost from_gives = { λ _ fault. fault ≡ NoMemory };

    fn from(_error: NoMemory) -> Self {
        SaveFault::NoMemory
    }
}
