ghost use Rattle.std.specs.Prelude.{◌≡◌, ◌≤◌};
ghost use Rattle.replay_file.specs.ValidReplay.{IsValidReplay};
ghost use Rattle.replay_run.specs.Playing.{playback_of, played, IsPlayback, PlaysOn};
ghost use Rattle.replay_run.specs.Rerun.{frame_count};

use crate::frames::next_frame;
use frame_core::Sim;
use game_orders::Frame;
use replay_file::{PartCursor, Replay};
use std::marker::Model;

/// A replay that is played back: the world after the frames so far, one frame at a time. Its marks
/// are passed over.
pub struct Playback<'a, S: Sim> {
    left: PartCursor<'a>,
    // The room of each frame.
    frame: Frame,
    frames: u32,
    world: S,
}

// By hand, so that what drops one needs no proof of how its parts are dropped.
impl<'a, S: Sim> Drop for Playback<'a, S> {
    fn drop(self) {
        let Self {
            left: _,
            frame: _,
            frames: _,
            world: _,
        } = self;
    }
}

impl<'a, S: Sim> Model for Playback<'a, S> {
    ghost use Rattle.replay_file.specs.Frames.{frames_of};
    ghost use Rattle.replay_run.specs.Playing.{PlaybackState, FitsPlayback};

    ghost Value = { PlaybackState S };

    ghost view = { λ p. record {
      left = frames_of p.left;
      frames = p.frames;
      world = p.world;
    } };

    ghost invariant = { λ p. FitsPlayback S.clients_of S.steps (record {
      left = frames_of p.left;
      frames = p.frames;
      world = p.world;
    }) };
}

impl<'a, S: Sim> Playback<'a, S> {
    /// A valid replay, before its first frame: over an opening world of its clients, which has made
    /// no step.
    pub fn begin(world: S, r: &'a Replay) -> Self
        requires valid { IsValidReplay r.now }
        requires clients { S.clients_of world ≡ r.now.clients }
        requires fresh { S.steps world ≡ 0 }
        ensures begins { result ≡ playback_of world r.entry.now }
        ensures plays { IsPlayback S.after world r.entry.now result }
    {
        Playback {
            left: r.parts.iter(),
            frame: Frame::empty(),
            frames: 0,
            world,
        }
    }

    /// Goes on by one frame. False exactly where none is left, and then nothing changes. Whatever
    /// replay is played back stays the same one.
    #[tactic(auto, using(crate::proofs::PlayingLemmas::plays_on))]
    pub fn step(&mut self) -> bool
        ensures step { PlaysOn S.after self.old self.new result }
        ensures plays { (start : S) (r : Replay) →
            IsPlayback S.after start r self.old → IsPlayback S.after start r self.new }
        ensures clients { S.clients_of self.new.world ≡ S.clients_of self.old.world }
    {
        if next_frame(&mut self.left, &mut self.frame) {
            self.world.step(&self.frame);
            self.frames += 1;
            true
        } else {
            false
        }
    }

    /// The number of frames so far.
    pub fn frames(&self) -> u32
        ensures { result ≡ self.now.frames }
    {
        self.frames
    }

    /// The world after the frames so far, which has made as many steps.
    pub fn world(&self) -> &S
        ensures world { result.now ≡ self.now.world }
        ensures made { S.steps self.now.world ≡ self.now.frames }
    {
        &self.world
    }

    /// The world after the frames so far, which has made as many steps.
    pub fn into_world(self) -> S
        ensures world { result ≡ self.entry.world }
        ensures made { S.steps result ≡ self.entry.frames }
    {
        let Self {
            left: _,
            frame: _,
            frames: _,
            world,
        } = self;
        world
    }
}

/// The world after the first `frames` frames of a valid replay, which has so many, over an opening
/// world of its clients, which has made no step. No mark is compared.
#[tactic(auto, using(crate::proofs::PlayingLemmas::played_more))]
pub fn world_after<S: Sim>(world: S, r: &Replay, frames: u32) -> S
    requires valid { IsValidReplay r.now }
    requires clients { S.clients_of world ≡ r.now.clients }
    requires fresh { S.steps world ≡ 0 }
    requires few { frames ≤ frame_count r.now }
    ensures world { result ≡ played S.after world r.now frames }
    ensures clients { S.clients_of result ≡ r.now.clients }
    ensures made { S.steps result ≡ frames }
{
    let mut playback = Playback::begin(world, r);
    for _played in 0..frames {
        playback.step();
    }
    playback.into_world()
}
