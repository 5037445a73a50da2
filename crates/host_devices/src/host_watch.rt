use crate::host_desk::SharedDesk;
use game_io::{MatchEvent, Watch};
use std::sync::Wait;
use std::time::Clock;

/// The watch of a host: it takes note of each event at the desk, and waits for nobody but the other
/// threads that do the same.
#[derive(Drop)]
pub struct HostWatch<R: Wait + Clock + Drop> {
    rt: R,
    desk: SharedDesk,
}

impl<R: Wait + Clock + Drop> HostWatch<R> {
    /// The watch that notes at this desk.
    pub fn new(rt: R, desk: SharedDesk) -> Self {
        HostWatch { rt, desk }
    }
}

impl<R: Wait + Clock + Drop> Watch for HostWatch<R> {
    fn log(&self, event: MatchEvent) {
        self.desk.note(&self.rt, event);
    }
}
