ghost use Rattle.std.specs.Prelude.{◌≡◌, ◌≤◌, ℕ};
ghost use Rattle.replay_file.specs.declared.replay.Replay.{Replay};
ghost use Rattle.replay_file.specs.ValidReplay.{IsValidReplay};
ghost use Rattle.replay_run.specs.Passing.{hash_by};
ghost use Rattle.replay_run.specs.Rerun.{frame_count, rerun_over};
ghost use Rattle.replay_run.specs.Stepping.{from_frame, has_frame, past_marks, stepped};
ghost use Rattle.replay_run.specs.Stepping.{stepped_to, with_frame, StepsFrom};

use crate::first_hash::FirstHash;
use crate::replayed::Replayed;
use game_orders::Frame;
use replay_file::{PartKind, Replay, ReplayCursor};
use std::marker::Model;

/// A replay that is run one frame at a time, as [`run_replay`](crate::run_replay) runs all of them.
/// It owns the replay and the world. Each mark is compared as soon as the frames before it were
/// stepped.
pub struct ReplayStepper<S: FirstHash> {
    // The parts after the next frame.
    rest: ReplayCursor,
    // The next frame, where there is one.
    next: Frame,
    has_next: bool,
    so_far: Replayed<S>,
}

// By hand, so that what drops one needs no proof of how its parts are dropped.
impl<S: FirstHash> Drop for ReplayStepper<S> {
    fn drop(self) {
        let Self {
            rest: _,
            next: _,
            has_next: _,
            so_far: _,
        } = self;
    }
}

impl<S: FirstHash> Model for ReplayStepper<S> {
    ghost use Rattle.replay_run.specs.Stepping.{with_frame, FitsSteps, StepState};

    ghost Value = { StepState S };

    ghost view = { λ s. record {
      replay = s.rest.replay;
      left = with_frame s.has_next s.next s.rest.left;
      so_far = s.so_far;
    } };

    ghost invariant = { λ s. FitsSteps S.clients_of S.steps (record {
      replay = s.rest.replay;
      left = with_frame s.has_next s.next s.rest.left;
      so_far = s.so_far;
    }) };
}

/// Compares the marks before the next frame, and reads it in the place of this one. False exactly
/// where none is left.
fn next_frame<S: FirstHash>(
    rest: &mut ReplayCursor,
    frame: &mut Frame,
    so_far: &mut Replayed<S>,
) -> bool
    ensures left { with_frame result frame.new rest.new.left ≡ from_frame 0 rest.old.left }
    ensures replay { rest.new.replay ≡ rest.old.replay }
    ensures compared { so_far.new ≡ past_marks
        (hash_by S.hash_of S.first_hash_of rest.old.replay.version) so_far.old rest.old.left }
{
    let version = rest.replay().version;
    while let Some(kind) = rest.next_into(frame) {
        let PartKind::Mark(hash) = kind else {
            return true;
        };
        so_far.compare(hash, version);
    }
    false
}

impl<S: FirstHash> ReplayStepper<S> {
    /// A valid replay, before its first frame: over an opening world of its clients, which has made
    /// no step.
    pub fn begin(world: S, replay: Replay) -> Self
        requires valid { IsValidReplay replay }
        requires clients { S.clients_of world ≡ replay.clients }
        requires fresh { S.steps world ≡ 0 }
        ensures { result ≡ stepped_to
            (rerun_over S.after S.hash_of S.first_hash_of S.summary_of world) replay 0 }
    {
        let mut rest = ReplayCursor::over(replay);
        let mut next = Frame::empty();
        let mut so_far = Replayed {
            difference: None,
            frames: 0,
            world,
        };
        let has_next = next_frame(&mut rest, &mut next, &mut so_far);
        ReplayStepper {
            rest,
            next,
            has_next,
            so_far,
        }
    }

    /// Goes on by one frame. False exactly where none is left, and then nothing changes: what all
    /// frames gave is what `run_replay` gives.
    #[tactic(auto, using(crate::proofs::SteppingLemmas::step_laws))]
    pub fn step(&mut self) -> bool
        ensures step { self.new ≡ stepped S.after
            (hash_by S.hash_of S.first_hash_of self.old.replay.version) self.old }
        ensures more { result ≡ has_frame self.old.left }
        ensures gives { (start : S) (r : Replay) (n : ℕ) →
            self.old ≡ stepped_to
            (rerun_over S.after S.hash_of S.first_hash_of S.summary_of start) r n →
            n ≤ frame_count r →
            StepsFrom (rerun_over S.after S.hash_of S.first_hash_of S.summary_of start) r n
            result self.new }
    {
        if self.has_next {
            let version = self.rest.replay().version;
            self.so_far.pass(PartKind::Frame, &self.next, version);
            self.has_next = next_frame(&mut self.rest, &mut self.next, &mut self.so_far);
            true
        } else {
            false
        }
    }

    /// What the frames so far gave: the differing mark with the fewest frames before it, the number
    /// of the frames, and the world after them, which has made as many steps.
    pub fn so_far(&self) -> &Replayed<S>
        ensures value { result.now ≡ self.now.so_far }
        ensures made { S.steps self.now.so_far.world ≡ self.now.so_far.frames }
    {
        &self.so_far
    }

    /// The replay.
    pub fn replay(&self) -> &Replay
        ensures { result.now ≡ self.now.replay }
    {
        self.rest.replay()
    }
}
