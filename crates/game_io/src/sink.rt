ghost use Rattle.std.specs.Prelude.{◌≡◌, IsErr};

use crate::failed::Failed;

/// Where bytes go.
pub trait Sink {
    ghost use Rattle.game_io.specs.SinkState.{SinkState, WritesBytes};

    /// The bytes that were written, where they are observable, and how often it has failed, up to
    /// the greatest `u64`.
    ghost state: { Self → SinkState };

    /// The number of faults so far. It never falls.
    fn faults(&self) -> u64
        ensures { result ≡ (state self.now).faults };

    /// Appends `piece` to what was written.
    ///
    /// `Failed` only where the count of faults rose in this call; then a prefix of `piece` was
    /// appended, of any length.
    fn put(&mut self, piece: &[u8]) -> Result<(), Failed>
        ensures { WritesBytes (state self.old) (state self.new) piece.now result (IsErr result) };
}
