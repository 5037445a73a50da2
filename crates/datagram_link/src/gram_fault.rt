ghost use Rattle.std.specs.Prelude.{◌≡◌};

use thiserror::Error;
use wire_bytes::Short;

/// Why bytes are no datagram: the first fault from the left.
#[derive(Clone, Copy, Debug, PartialEq, Eq, Error)]
pub enum GramFault {
    /// A field runs past the end.
    #[error("a field runs past the end of a datagram")]
    Short,
    /// The first byte is the tag of no datagram.
    #[error("the tag of a datagram is unknown")]
    BadTag,
    /// The length of a payload is 0 or above [`crate::MAX_PAYLOAD`].
    #[error("the length of a payload is bad")]
    BadLength,
    /// Bytes follow the last field.
    #[error("bytes follow the last field of a datagram")]
    TrailingBytes,
    /// Out of memory.
    #[error("out of memory")]
    NoMemory,
}

impl From<Short> for GramFault {
    ghost use Rattle.datagram_link.specs.declared.gram_fault.GramFault.TheVariants as fault;

    ghost from_gives = { λ _ error. error ≡ fault.Short };

    fn from(_error: Short) -> GramFault {
        GramFault::Short
    }
}
