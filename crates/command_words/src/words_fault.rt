ghost use Rattle.std.specs.Prelude.{◌≡◌};
ghost use Rattle.command_words.specs.declared.words_fault.WordsFault.TheVariants as fault;

use std::alloc::{AllocError, AllocFailed};
use thiserror::Error;

/// Why arguments name no request.
#[derive(Clone, Copy, Debug, PartialEq, Eq, Error)]
pub enum WordsFault {
    /// They are no command line of this program: an unknown command, option or argument, an option
    /// that is missing, repeated or without its value, no name where one is wanted, or too many
    /// names.
    #[error("refused words")]
    Refused,

    /// Out of memory.
    #[error("out of memory")]
    NoMemory,
}

impl From<AllocError> for WordsFault {
    ghost from_gives = { λ _ error. error ≡ fault.NoMemory };

    fn from(_error: AllocError) -> WordsFault {
        WordsFault::NoMemory
    }
}

impl<T: Drop> From<AllocFailed<T>> for WordsFault {
    ghost from_gives = { λ _ error. error ≡ fault.NoMemory };

    fn from(_error: AllocFailed<T>) -> WordsFault {
        WordsFault::NoMemory
    }
}
