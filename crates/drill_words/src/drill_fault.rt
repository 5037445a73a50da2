ghost use Rattle.std.specs.Prelude.{◌≡◌};
ghost use Rattle.drill_words.specs.DrillFault.{cause_of, line_of};

use thiserror::Error;

/// Why bytes are no drill: the first fault, with the number of its line, from 1.
#[derive(Debug, Drop, Error)]
pub enum DrillFault {
    /// A word is unknown, missing or too many, or stands in a hash's place and is no hash. Where no
    /// line is kept, the line is 0.
    #[error("line {line}: a word is unknown, missing or too many")]
    BadWord {
        /// The line's number, from 1, or 0 for no line.
        line: u32,
    },
    /// A word in the place of a number, a peer or a client isn't one to ten digits, or a number is
    /// out of its range.
    #[error("line {line}: a number is expected, or is out of its range")]
    BadNumber {
        /// The line's number.
        line: u32,
    },
    /// A peer or a client isn't below the number of clients.
    #[error("line {line}: there is no such client")]
    NoSuchClient {
        /// The line's number.
        line: u32,
    },
    /// A line has more than `MAX_ORDERS` orders, which is what a client may seal for one frame.
    #[error("line {line}: too many orders")]
    TooManyOrders {
        /// The line's number.
        line: u32,
    },
    /// The line follows `MAX_EVENTS` events.
    #[error("line {line}: too many events")]
    TooManyEvents {
        /// The line's number.
        line: u32,
    },
    /// Out of memory.
    #[error("out of memory")]
    NoMemory,
}

impl DrillFault {
    /// The cause as it is printed: the variant's name.
    pub fn cause(&self) -> &'static str
        ensures { result.now ≡ cause_of self.now }
    {
        match self {
            DrillFault::BadWord { .. } => "BadWord",
            DrillFault::BadNumber { .. } => "BadNumber",
            DrillFault::NoSuchClient { .. } => "NoSuchClient",
            DrillFault::TooManyOrders { .. } => "TooManyOrders",
            DrillFault::TooManyEvents { .. } => "TooManyEvents",
            DrillFault::NoMemory => "NoMemory",
        }
    }

    /// The line's number, from 1, or 0 for no line.
    pub fn line(&self) -> u32
        ensures { result ≡ line_of self.now }
    {
        match self {
            DrillFault::BadWord { line }
            | DrillFault::BadNumber { line }
            | DrillFault::NoSuchClient { line }
            | DrillFault::TooManyOrders { line }
            | DrillFault::TooManyEvents { line } => *line,
            DrillFault::NoMemory => 0,
        }
    }
}
