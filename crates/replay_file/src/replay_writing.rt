ghost use Rattle.std.specs.Prelude.{◌≡◌, ◌++◌, OnOk, OnErr, IfOk};
ghost use Rattle.wire_bytes.specs.Write.{Extends};
ghost use Rattle.replay_file.specs.declared.limits.TheConstants.{VERSION};
ghost use Rattle.replay_file.specs.PartBytes.{parts_bytes};
ghost use Rattle.replay_file.specs.ReplayBytes.{header_bytes, replay_bytes, FitsReplay};
ghost use Rattle.replay_file.specs.ValidReplay.{IsValidReplay};

use crate::limits::MAGIC;
use crate::part_writing::append_part;
use crate::parts::Parts;
use crate::replay::Replay;
use base::NoMemory;
use game_orders::Frame;
use std::alloc::Global;
use wire_bytes::{write_u8, write_u16, write_u32, write_u64};

/// Appends the header of a replay.
#[tactic(auto, using(wire_bytes::proofs::WriteLemmas::written), unfolding(crate::specs::ReplayBytes::header_bytes))]
pub(crate) fn append_header(
    out: &mut Vec<u8>,
    version: u16,
    rules: u64,
    seed: u32,
    clients: u8,
) -> Result<(), NoMemory>
    ensures { OnOk result
        (out.new.items ≡ out.old.items ++ header_bytes version rules seed clients) }
{
    write_u32(out, MAGIC)?;
    write_u16(out, version)?;
    write_u64(out, rules)?;
    write_u32(out, seed)?;
    write_u8(out, clients)
}

/// Appends parts one after the other.
#[tactic(auto, using(crate::proofs::ReplayLemmas::writing_step))]
fn append_parts(out: &mut Vec<u8>, parts: &Parts) -> Result<(), NoMemory>
    ensures { OnOk result (out.new.items ≡ out.old.items ++ parts_bytes parts.now) }
{
    let mut left = parts.iter();
    let mut frame = Frame::empty();
    while let Some(kind) = left.next_into(&mut frame) {
        append_part(out, kind, &frame)?;
    }
    Ok(())
}

/// The spelling of a replay, which [`crate::read_replay`] reads. The replay is of the version that
/// is written and meets its rules. Out of memory is the only error.
#[tactic(auto, unfolding(crate::specs::ReplayBytes::replay_bytes))]
pub fn write_replay(alloc: Global, r: &Replay) -> Result<Vec<u8>, NoMemory>
    requires version { r.now.version ≡ VERSION }
    requires valid { IsValidReplay r.now }
    ensures { IfOk result (λ bytes. bytes.items ≡ replay_bytes r.now) }
{
    let mut out = Vec::new(alloc);
    append_header(&mut out, r.version, r.rules, r.seed, r.clients)?;
    append_parts(&mut out, &r.parts)?;
    write_u8(&mut out, 0)?;
    Ok(out)
}

/// The numbers of a replay that code holds fit their fields. The call does nothing.
pub fn replay_fits(r: &Replay)
    ensures { FitsReplay r.now }
{
    // each number is read so that the proof has the range of its type
    let _version = r.version;
    let _rules = r.rules;
    let _seed = r.seed;
    let _clients = r.clients;
    r.parts.fit();
}
