use crate::gate::Gate;
use crate::watch::Watch;

/// A gate that never holds, and lends this watch.
#[derive(Drop)]
pub struct WatchedGate<W: Watch + Sync + Drop> {
    watch: W,
}

impl<W: Watch + Sync + Drop> WatchedGate<W> {
    /// A gate with this watch.
    pub fn new(watch: W) -> Self {
        WatchedGate { watch }
    }
}

impl<W: Watch + Sync + Drop> Gate for WatchedGate<W> {
    type Watch = W;

    fn before(&self, _client: u8, _frame: u32) {}

    fn after(&self, _client: u8, _frame: u32) {}

    fn watch(&self) -> &W {
        &self.watch
    }
}
