ghost use Rattle.std.specs.Prelude.{◌≡◌};

use base::NoMemory;
use thiserror::Error;

/// Why a match was not served.
#[derive(Debug, PartialEq, Eq, Drop, Error)]
pub enum ServeFault {
    /// The net failed, and its count of faults rose in the call.
    #[error("the net failed")]
    Net,
    /// Out of memory.
    #[error("out of memory")]
    NoMemory,
}

impl From<NoMemory> for ServeFault {
    ghost use Rattle.match_serve.specs.declared.serve_fault.ServeFault.TheVariants.{NoMemory};

    ghost from_gives = { λ _ fault. fault ≡ NoMemory };

    fn from(_error: NoMemory) -> ServeFault {
        ServeFault::NoMemory
    }
}
