use crate::reported::Reported;
use frame_core::{Leaving, Put};

/// The answer to a packet of a client.
#[derive(Debug, Drop, PartialEq, Eq)]
pub enum UpAnswer {
    /// To orders: what the client's column answers.
    Entry(Put),
    /// To a report: what the board answers.
    Report(Reported),
    /// To a farewell: the frame at which the departure stands.
    Bye(Leaving),
    /// To a greeting, which changes nothing.
    Ignored,
}
