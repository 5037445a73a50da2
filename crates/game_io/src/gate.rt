use crate::watch::{NoWatch, Watch};

/// Holds the threads of a match where a test wants them held, and lends the watch that is told what
/// happens in a match over links.
pub trait Gate {
    /// The watch.
    type Watch: Watch + Sync;

    /// Called by the thread that feeds a client, before it puts the client's play of a frame.
    fn before(&self, client: u8, frame: u32);

    /// Called by that thread once the put was answered.
    fn after(&self, client: u8, frame: u32);

    /// The watch of the match.
    fn watch(&self) -> &Self::Watch;
}

/// The gate of a real match. It never holds, and its watch logs nothing.
#[derive(Clone, Copy, Debug)]
pub struct NoGate;

impl Gate for NoGate {
    type Watch = NoWatch;

    fn before(&self, _client: u8, _frame: u32) {}

    fn after(&self, _client: u8, _frame: u32) {}

    fn watch(&self) -> &NoWatch {
        NoWatch::lent()
    }
}
