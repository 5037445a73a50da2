ghost use Rattle.std.specs.Prelude.{◌≡◌};

use crate::failed::Failed;

/// Where bytes come from.
pub trait Source {
    ghost use Rattle.game_io.specs.SourceState.{SourceState, TakesBytes};

    /// The bytes that are left, where they are observable, and how often it has failed, up to
    /// the greatest `u64`.
    ghost state: { Self → SourceState };

    /// The number of faults so far. It never falls.
    fn faults(&self) -> u64
        ensures { result ≡ (state self.now).faults };

    /// Moves the first of the bytes that are left to the beginning of `into`, and answers how many.
    /// What then follows them in `into`, or stands in it after a failure, is not said.
    ///
    /// The answer is at most the length of `into`. Where `into` has room, 0 means the end of the
    /// input. `Failed` only where the count of faults rose in this call; then nothing was taken.
    fn take(&mut self, into: &mut [u8]) -> Result<usize, Failed>
        ensures { TakesBytes (state self.old) (state self.new) into.new result };
}
