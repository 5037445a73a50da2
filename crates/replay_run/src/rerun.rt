ghost use Rattle.std.specs.Prelude.{◌≡◌, ◌≤◌};
ghost use Rattle.replay_file.specs.ValidReplay.{IsValidReplay};
ghost use Rattle.replay_run.specs.Rerun.{rerun_over, replayed, replayed_from, frame_count};

use crate::first_hash::FirstHash;
use crate::frames::parts_after;
use crate::replayed::Replayed;
use game_orders::Frame;
use replay_file::Replay;

/// Runs a valid replay over an opening world of its clients, which has made no step.
#[tactic(auto, using(crate::proofs::RerunLemmas::from_start))]
pub fn run_replay<S: FirstHash>(world: S, r: &Replay) -> Replayed<S>
    requires valid { IsValidReplay r.now }
    requires clients { S.clients_of world ≡ r.now.clients }
    requires fresh { S.steps world ≡ 0 }
    ensures { result ≡ replayed
        (rerun_over S.after S.hash_of S.first_hash_of S.summary_of world) r.now }
{
    run_replay_from(world, 0, r)
}

/// Runs the frames of a valid replay from `from` on, over a world of its clients that has made
/// `from` steps, as after the first `from` frames of a replay. The replay has so many. The frames
/// before are skipped, and the marks that have fewer frames before them; all frames count.
#[tactic(auto, using(crate::proofs::RerunLemmas::replay_steps))]
pub fn run_replay_from<S: FirstHash>(world: S, from: u32, r: &Replay) -> Replayed<S>
    requires valid { IsValidReplay r.now }
    requires clients { S.clients_of world ≡ r.now.clients }
    requires made { S.steps world ≡ from }
    requires few { from ≤ frame_count r.now }
    ensures { result ≡ replayed_from
        (rerun_over S.after S.hash_of S.first_hash_of S.summary_of world) from r.now }
{
    let version = r.version;
    let mut run = Replayed {
        difference: None,
        frames: from,
        world,
    };
    let mut left = parts_after(r, from);
    let mut frame = Frame::empty();
    while let Some(kind) = left.next_into(&mut frame) {
        run.pass(kind, &frame, version);
    }
    run
}
