use crate::match_event::MatchEvent;
use crate::watch::Watch;
use base::NoMemory;
use std::alloc::Global;
use std::sync::OnceLock;
use std::sync::atomic::{AtomicUsize, Ordering};

/// A watch that keeps a list of what was logged, in order, but for waiting, which is logged again and
/// again. What has no room in the list is left out.
#[derive(Drop)]
pub struct MemWatch {
    count: AtomicUsize,
    places: Vec<OnceLock<MatchEvent>>,
}

impl MemWatch {
    /// An empty list with room for so many events. Out of memory is its one error.
    pub fn new(alloc: Global, room: usize) -> Result<MemWatch, NoMemory> {
        let mut places = Vec::new(alloc);
        for _place in 0..room {
            places.push(OnceLock::new())?;
        }
        Ok(MemWatch {
            count: AtomicUsize::new(0),
            places,
        })
    }

    /// What was logged. Out of memory is its one error.
    pub fn logged(&self, alloc: Global) -> Result<Vec<MatchEvent>, NoMemory> {
        let mut events = Vec::new(alloc);
        for place in &self.places {
            if let Some(event) = place.get() {
                events.push(*event)?;
            }
        }
        Ok(events)
    }
}

impl Watch for MemWatch {
    fn log(&self, event: MatchEvent) {
        if let MatchEvent::WaitsFor { .. } = event {
            return;
        }
        let place = self.count.fetch_add(1, Ordering::SeqCst);
        if let Some(place) = self.places.get(place) {
            let _kept = place.try_set(event);
        }
    }
}
