ghost use Rattle.std.specs.Prelude.{◌≡◌, ◌+◌, ◌++◌, ◌<◌, ◌^◌, IfOk, OnOk};
ghost use Rattle.replay_file.specs.PartBytes.{part_bytes, FitsPart};
ghost use Rattle.replay_file.specs.PartKind.{part_of};
ghost use Rattle.replay_file.specs.ValidReplay.{IsValidReplay};
ghost use Rattle.replay_run.specs.Migrating.{marked_part, marks_in, Migrates};
ghost use Rattle.replay_run.specs.Rerun.{rerun_over};

use crate::difference::Difference;
use crate::first_hash::FirstHash;
use crate::replayed::Replayed;
use base::NoMemory;
use frame_core::Sim;
use game_orders::Frame;
use replay_file::{PartKind, Replay, ReplayWriter, replay_fits};
use std::alloc::Global;

/// What a migration comes to.
#[derive(Drop)]
pub enum Migration {
    /// A mark differs: the one with the fewest frames before it.
    Differs(Difference),
    /// None does.
    Migrated {
        /// The bytes of the new replay.
        bytes: Vec<u8>,
        /// The number of its frames.
        frames: u32,
        /// The number of its marks.
        marks: u32,
    },
}

/// Writes a part of this kind anew: a frame as it is, a mark with the hash of this world. Returns
/// how many marks that are.
fn write_anew<S: Sim>(
    writer: &mut ReplayWriter,
    kind: PartKind,
    frame: &Frame,
    world: &S,
) -> Result<u32, NoMemory>
    ensures written { OnOk result (writer.new ≡ writer.old
        ++ part_bytes (marked_part (S.hash_of world.now) (part_of kind frame.now))) }
    ensures fits { OnOk result
        (FitsPart (marked_part (S.hash_of world.now) (part_of kind frame.now))) }
    ensures marks { IfOk result (λ marks. marks ≡ marks_in (part_of kind frame.now)) }
{
    match kind {
        PartKind::Frame => {
            writer.push_frame(frame)?;
            Ok(0)
        }
        PartKind::Mark(_) => {
            let hash = world.hash();
            writer.push_mark(hash)?;
            Ok(1)
        }
    }
}

/// Runs a valid replay over an opening world of its clients, which has made no step, and writes it
/// in the version that is written, with the same frames and with the world's hash at each mark.
/// It ends at the first mark that differs. Out of memory is the only error.
#[tactic(auto, using(crate::proofs::RerunLemmas::replay_steps, crate::proofs::MigratingLemmas::migrate_steps))]
pub fn migrate<S: FirstHash>(alloc: Global, world: S, r: &Replay) -> Result<Migration, NoMemory>
    requires valid { IsValidReplay r.now }
    requires clients { S.clients_of world ≡ r.now.clients }
    requires fresh { S.steps world ≡ 0 }
    ensures { IfOk result (Migrates
        (rerun_over S.after S.hash_of S.first_hash_of S.summary_of world) r.now) }
{
    let version = r.version;
    replay_fits(r);
    let mut writer = ReplayWriter::create(alloc, r.rules, r.seed, r.clients)?;
    let mut run = Replayed {
        difference: None,
        frames: 0,
        world,
    };
    let mut marks = 0;
    let mut left = r.parts.iter();
    let mut frame = Frame::empty();
    while let Some(kind) = left.next_into(&mut frame) {
        run.pass(kind, &frame, version);
        if let Some(difference) = run.difference {
            return Ok(Migration::Differs(difference));
        }
        marks += write_anew(&mut writer, kind, &frame, &run.world)?;
    }
    Ok(Migration::Migrated {
        bytes: writer.finish()?,
        frames: run.frames,
        marks,
    })
}
