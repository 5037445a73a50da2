//! The frames of a replay's parts, without the marks between them.
ghost use Rattle.std.specs.Prelude.{◌≡◌, ◌≤◌, ◌+◌, drop};
ghost use Rattle.replay_file.specs.Frames.{frames_of};
ghost use Rattle.replay_file.specs.ValidReplay.{IsValidReplay};
ghost use Rattle.replay_run.specs.Playing.{TakesFrame, taken_frame};
ghost use Rattle.replay_run.specs.Rerun.{frame_count};
ghost use Rattle.replay_run.specs.Skipping.{IsSkipped};

use game_orders::Frame;
use replay_file::{PartCursor, PartKind, Replay};

/// Reads the next frame, past the marks before it, in the place of this one. False exactly where
/// none is left.
pub(crate) fn next_frame(left: &mut PartCursor<'_>, frame: &mut Frame) -> bool
    ensures { TakesFrame left.old left.new (taken_frame result frame.new) }
{
    while let Some(kind) = left.next_into(frame) {
        if let PartKind::Frame = kind {
            return true;
        }
    }
    false
}

/// The number of frames of a valid replay, at most `MAX_FRAMES`.
#[tactic(auto, using(crate::proofs::RerunLemmas::few_in_all))]
pub fn frame_count(r: &Replay) -> u32
    requires { IsValidReplay r.now }
    ensures { result ≡ frame_count r.now }
{
    r.parts.frame_count() as u32
}

/// The parts after the first `from` frames of a replay, which has so many.
#[tactic(auto, using(crate::proofs::FramesLemmas::skip_steps))]
pub(crate) fn parts_after(r: &Replay, from: u32) -> PartCursor<'_>
    requires { from ≤ frame_count r.now }
    ensures { IsSkipped r.entry.now from from result }
{
    let mut left = r.parts.iter();
    let mut frame = Frame::empty();
    for _skipped in 0..from {
        next_frame(&mut left, &mut frame);
    }
    left
}
