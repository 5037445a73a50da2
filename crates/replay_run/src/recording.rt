ghost use Rattle.std.specs.Prelude.{◌≡◌, ◌<◌, ◌≤◌, ◌++◌, ◌^◌, length, slice_index_or, IfOk, OnOk};
ghost use Rattle.std.specs.List.{AllByRecursion};
ghost use Rattle.frame_core.specs.Match.{Match};
ghost use Rattle.frame_core.specs.Ready.{frame_at};
ghost use Rattle.server_core.specs.Served.{agreed_marks};
ghost use Rattle.replay_file.specs.FirstFault.{Spells};
ghost use Rattle.replay_file.specs.PartBytes.{parts_bytes, FitsPart};
ghost use Rattle.replay_run.specs.Recording.{recorded, recorded_by, replay_of};

use base::NoMemory;
use frame_core::Sim;
use game_orders::Frame;
use replay_file::ReplayWriter;
use server_core::Server;
use std::alloc::Global;

/// The mark of frame `n`.
fn mark_at(marks: &[u64], n: u32) -> u64
    requires { n < length marks.now }
    ensures value { result ≡ slice_index_or marks.now n 0 }
    ensures fits { result < 2 ^ 64 }
{
    marks[n as usize]
}

/// Writes the frames that a server ticked, each with a mark after it.
fn write_frames<S: Sim>(writer: &mut ReplayWriter, server: &Server<S>) -> Result<(), NoMemory>
    ensures written { OnOk result (writer.new ≡ writer.old ++ parts_bytes
        (recorded_by server.now.columns server.now.marks server.now.ticked)) }
    ensures fits { OnOk result (AllByRecursion FitsPart
        (recorded_by server.now.columns server.now.marks server.now.ticked)) }
{
    let columns = server.columns();
    let marks = server.marks();
    let mut frame = Frame::empty();
    for n in 0..server.ticked() {
        columns.fill_frame(n, &mut frame);
        writer.push_frame(&frame)?;
        writer.push_mark(mark_at(marks, n))?;
    }
    Ok(())
}

/// The bytes of the replay of a match with these rules and this seed: the agreed frames that the
/// server ticked, and after each a mark with the hash of its world there. `read_replay` reads them.
/// Out of memory is the only error.
pub fn record_of<S: Sim>(
    alloc: Global,
    rules: u64,
    seed: u32,
    server: &Server<S>,
) -> Result<Vec<u8>, NoMemory>
    ensures { (m : Match S) → m.clients ≡ length server.now.columns →
        server.now.marks ≡ agreed_marks m server.now.columns server.now.ticked →
        IfOk result (λ bytes. Spells rules bytes.items
        (replay_of m rules seed server.now.columns server.now.ticked)) }
{
    let clients = server.columns().clients();
    // it is read so that the proof has its limit
    let _ticked = server.ticked();
    let mut writer = ReplayWriter::create(alloc, rules, seed, clients)?;
    write_frames(&mut writer, server)?;
    writer.finish()
}
