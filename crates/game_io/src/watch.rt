use crate::match_event::MatchEvent;

/// To whom a match over links tells what happens, for a log. It has no part in the match: a call
/// returns, and that is all that is promised of it.
pub trait Watch {
    /// This happened just now. Several threads may call it at once.
    fn log(&self, event: MatchEvent);
}

/// A watch that logs nothing.
#[derive(Clone, Copy, Debug)]
pub struct NoWatch;

impl Watch for NoWatch {
    fn log(&self, _event: MatchEvent) {}
}

/// What every gate lends that logs nothing.
static NO_WATCH: NoWatch = NoWatch;

impl NoWatch {
    /// A watch that logs nothing, to be lent.
    pub fn lent() -> &'static NoWatch {
        &NO_WATCH
    }
}
