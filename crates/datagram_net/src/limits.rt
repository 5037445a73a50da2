/// How long a turn of a link waits for a datagram, in thousandths of a second.
pub const TURN_MILLIS: u64 = 20;

/// After so many quiet turns in a row a link is lost.
pub const MAX_QUIET: u32 = 10_000;

/// A quiet link sends an acknowledgement each so many turns, so that the other side knows of it.
pub(crate) const SIGN_TURNS: u32 = 500;

/// How many quiet turns a link makes at most, once it is handed back, for what is unacknowledged.
pub(crate) const LINGER_TURNS: u32 = 50;

/// From so many bytes on that nobody has read, a payload that comes is lost.
pub(crate) const MAX_UNREAD: usize = 1 << 20;

/// How often a call is answered once more at most, while nothing comes over the link.
pub(crate) const MAX_ANSWERS: u32 = 1_500;
