ghost use Rattle.std.specs.Prelude.{◌≡◌, ◌<◌, ◌≤◌, ◌++◌, ◌^◌, length, IfOk, OnOk};
ghost use Rattle.std.specs.List.{AllByRecursion};
ghost use Rattle.frame_core.specs.Agreed.{AreReady};
ghost use Rattle.game_orders.specs.declared.limits.TheConstants.{MAX_CLIENTS, MAX_FRAMES};
ghost use Rattle.match_run.specs.Local.{longest};
ghost use Rattle.replay_file.specs.FirstFault.{Spells};
ghost use Rattle.replay_file.specs.PartBytes.{parts_bytes, FitsPart};
ghost use Rattle.replay_run.specs.Recording.{recorded_by, replay_of};
ghost use Rattle.server_core.specs.Served.{agreed_marks};
ghost use Rattle.match_record.specs.Matches.{match_from};

use base::NoMemory;
use frame_core::{Columns, Maker, Sim};
use game_orders::{Frame, MAX_CLIENTS, MAX_FRAMES};
use match_run::longest;
use replay_file::ReplayWriter;
use std::alloc::Global;

/// The mark of a world.
fn mark_of<S: Sim>(sim: &S) -> u64
    ensures value { result ≡ S.hash_of sim.now }
    ensures fits { result < 2 ^ 64 }
{
    sim.hash()
}

/// Writes the first `count` frames of the columns, and after each a mark with the hash of the
/// world, which is stepped by them.
fn write_frames<S: Sim>(
    writer: &mut ReplayWriter,
    columns: &Columns,
    count: u32,
    sim: &mut S,
) -> Result<(), NoMemory>
    requires ready { AreReady columns.now count }
    requires clients { S.clients_of sim.old ≡ length columns.now }
    requires fresh { S.steps sim.old ≡ 0 }
    ensures written { OnOk result (writer.new ≡ writer.old ++ parts_bytes (recorded_by columns.now
        (agreed_marks (match_from S.after S.hash_of S.summary_of sim.old
        (S.clients_of sim.old)) columns.now count) count)) }
    ensures fits { OnOk result (AllByRecursion FitsPart (recorded_by columns.now
        (agreed_marks (match_from S.after S.hash_of S.summary_of sim.old
        (S.clients_of sim.old)) columns.now count) count)) }
    ensures few { OnOk result (count ≤ MAX_FRAMES) }
{
    let mut frame = Frame::empty();
    for n in 0..count {
        // it is asked so that the proof has its limit
        let _ready = columns.ready(n);
        columns.fill_frame(n, &mut frame);
        sim.step(&frame);
        writer.push_frame(&frame)?;
        writer.push_mark(mark_of(sim))?;
    }
    Ok(())
}

/// The bytes of the replay of a match with these rules, this seed and these columns: all of its
/// frames, and after each a mark with the hash of the maker's world there. `read_replay` reads
/// them. The frames are run once more, over a second world. Out of memory is the only error.
pub fn record_bytes<M: Maker>(
    alloc: Global,
    rules: u64,
    seed: u32,
    clients: u8,
    maker: &M,
    columns: &Columns,
) -> Result<Vec<u8>, NoMemory>
    requires least { 1 ≤ clients }
    requires most { clients ≤ MAX_CLIENTS }
    requires count { length columns.now ≡ clients }
    requires ready { AreReady columns.now (longest columns.now) }
    ensures { IfOk result (λ bytes. Spells rules bytes.items (replay_of (match_from M.World.after
        M.World.hash_of M.World.summary_of (M.made maker.now seed clients) clients) rules seed columns.now (longest columns.now))) }
{
    let mut sim = maker.make(alloc, seed, clients)?;
    let count = longest(columns);
    let mut writer = ReplayWriter::create(alloc, rules, seed, clients)?;
    write_frames(&mut writer, columns, count, &mut sim)?;
    writer.finish()
}
