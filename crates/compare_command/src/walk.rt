//! The frames and the marks of a replay's parts, taken off one by one.
ghost use Rattle.std.specs.Prelude.{◌≡◌};
ghost use Rattle.compare_command.specs.Walking.{first_frame, first_mark};
ghost use Rattle.replay_run.specs.Playing.{after_frame};

use game_orders::Frame;
use replay_file::{PartCursor, PartKind};

/// Reads the next frame, past the marks before it, in the place of this one. It has no entries
/// where none is left.
pub(crate) fn next_frame(left: &mut PartCursor<'_>, frame: &mut Frame)
    ensures value { frame.new ≡ first_frame left.old }
    ensures rest { left.new ≡ after_frame left.old }
{
    while let Some(kind) = left.next_into(frame) {
        if let PartKind::Frame = kind {
            return;
        }
    }
    frame.clear();
}

/// The mark before the next frame, past that frame, which is read in the place of this one.
pub(crate) fn next_mark(left: &mut PartCursor<'_>, frame: &mut Frame) -> Option<u64>
    ensures value { result ≡ first_mark left.old }
    ensures rest { left.new ≡ after_frame left.old }
{
    let Some(kind) = left.next_into(frame) else {
        return None;
    };
    match kind {
        PartKind::Frame => None,
        PartKind::Mark(hash) => {
            next_frame(left, frame);
            Some(hash)
        }
    }
}
