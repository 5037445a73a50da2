use crate::link_state::LinkState;
use std::sync::{Condvar, Mutex, MutexGuard};
use std::thread;

/// A link: its state, and by what who waits for it is woken.
#[derive(Drop)]
pub(crate) struct Link {
    pub(crate) state: Mutex<LinkState>,
    pub(crate) changed: Condvar,
}

impl Link {
    /// A link of this state.
    pub(crate) fn new(state: LinkState) -> Self {
        Link {
            state: Mutex::new(state),
            changed: Condvar::new(),
        }
    }

    /// The state, for the link's thread, which waits by trying again and needs no handle for that:
    /// the halves keep the lock no longer than a moment. None only after more tries than a run makes.
    pub(crate) fn seize(&self) -> Option<MutexGuard<'_, LinkState>> {
        for _try in 0..u64::MAX {
            if let Some(state) = self.state.try_lock() {
                return Some(state);
            }
            thread::yield_now();
        }
        None
    }
}
