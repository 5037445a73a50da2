ghost use Rattle.std.specs.Prelude.{◌≡◌};
ghost use Rattle.replay_file.specs.PartKind.{next_of};
ghost use Rattle.replay_file.specs.PartStore.{TakesPart};

use crate::part_cursor::take_after;
use crate::part_kind::PartKind;
use crate::replay::Replay;
use game_orders::Frame;
use std::marker::Model;

/// A replay, and which of its parts are left, from the first on. It owns the replay: what holds it
/// borrows nothing, as a [`PartCursor`](crate::PartCursor) does.
#[derive(Drop)]
pub struct ReplayCursor {
    replay: Replay,
    // How many bytes of the stored parts were read.
    read: usize,
}

impl Model for ReplayCursor {
    ghost use Rattle.std.specs.Prelude.{drop};
    ghost use Rattle.replay_file.specs.PartStore.{all_stored, parts_in, IsStoreAfter};
    ghost use Rattle.replay_file.specs.ReplayLeft.{ReplayLeft};

    ghost Value = { ReplayLeft };

    ghost view = { λ c. record {
      replay = c.replay;
      left = parts_in (drop c.read (all_stored c.replay.parts));
    } };

    ghost invariant = { λ c. IsStoreAfter c.read (all_stored c.replay.parts) };
}

impl ReplayCursor {
    /// All parts of a replay.
    pub fn over(replay: Replay) -> ReplayCursor
        ensures { result ≡ record { replay = replay; left = replay.parts } }
    {
        let _stored = replay.parts.stored();
        ReplayCursor { replay, read: 0 }
    }

    /// The next part, as [`PartCursor::next_into`](crate::PartCursor::next_into) gives it. None
    /// exactly where no part is left.
    pub fn next_into(&mut self, frame: &mut Frame) -> Option<PartKind>
        ensures taken { TakesPart self.old.left self.new.left (next_of result frame.new) }
        ensures replay { self.new.replay ≡ self.old.replay }
    {
        take_after(self.replay.parts.stored(), &mut self.read, frame)
    }

    /// The replay, whatever is left of it.
    pub fn replay(&self) -> &Replay
        ensures { result.now ≡ self.now.replay }
    {
        &self.replay
    }
}
