ghost use Rattle.std.specs.Prelude.{◌≡◌, ◌++◌, OnOk, OnErr, length};
ghost use Rattle.wire_bytes.specs.Field.{field_bytes};
ghost use Rattle.wire_bytes.specs.Write.{Extends};
ghost use Rattle.replay_file.specs.declared.part.Part.TheVariants as part;
ghost use Rattle.replay_file.specs.PartKind.{part_of};
ghost use Rattle.replay_file.specs.PartStore.{stored_bytes};
ghost use Rattle.replay_file.specs.PartBytes.{entry_bytes, entries_bytes, part_bytes};

use crate::part_kind::PartKind;
use base::NoMemory;
use game_orders::{Entry, Frame, write_orders};
use wire_bytes::{write_u8, write_u64};

/// Appends the entry of one client.
#[tactic(auto, using(wire_bytes::proofs::WriteLemmas::written))]
fn append_entry(out: &mut Vec<u8>, entry: &Entry) -> Result<(), NoMemory>
    ensures ok { OnOk result (out.new.items ≡ out.old.items ++ entry_bytes entry.now) }
    ensures err { OnErr result (Extends out.old.items out.new.items) }
{
    match entry {
        Entry::Play(orders) => {
            write_u8(out, 1)?;
            write_orders(out, orders)
        }
        Entry::Leave => write_u8(out, 0),
    }
}

/// Appends the entries of a frame.
#[tactic(auto, using(crate::proofs::FrameLemmas::writing_steps))]
fn append_entries(out: &mut Vec<u8>, frame: &Frame) -> Result<(), NoMemory>
    ensures ok { OnOk result (out.new.items ≡ out.old.items ++ entries_bytes frame.now) }
    ensures err { OnErr result (Extends out.old.items out.new.items) }
{
    for client in 0..frame.len() {
        let Some(entry) = frame.get(client) else {
            unreachable!()
        };
        append_entry(out, entry)?;
    }
    Ok(())
}

/// Appends a frame as it stands in a replay.
#[tactic(auto, using(wire_bytes::proofs::WriteLemmas::written), unfolding(crate::specs::PartBytes::part_bytes))]
pub(crate) fn append_frame(out: &mut Vec<u8>, frame: &Frame) -> Result<(), NoMemory>
    ensures ok { OnOk result
        (out.new.items ≡ out.old.items ++ part_bytes (part.Frame frame.now)) }
    ensures err { OnErr result (Extends out.old.items out.new.items) }
{
    write_u8(out, 1)?;
    append_entries(out, frame)
}

/// Appends a mark.
#[tactic(auto, using(wire_bytes::proofs::WriteLemmas::written))]
pub(crate) fn append_mark(out: &mut Vec<u8>, hash: u64) -> Result<(), NoMemory>
    ensures ok { OnOk result (out.new.items ≡ out.old.items ++ (field_bytes 1 2
        ++ field_bytes 8 hash)) }
    ensures err { OnErr result (Extends out.old.items out.new.items) }
{
    write_u8(out, 2)?;
    write_u64(out, hash)
}

/// Appends a part of this kind as it stands in a replay.
#[tactic(auto, using(wire_bytes::proofs::WriteLemmas::written), unfolding(crate::specs::PartBytes::part_bytes))]
pub(crate) fn append_part(out: &mut Vec<u8>, kind: PartKind, frame: &Frame) -> Result<(), NoMemory>
    ensures ok { OnOk result (out.new.items ≡ out.old.items ++ part_bytes (part_of kind frame.now)) }
    ensures err { OnErr result (Extends out.old.items out.new.items) }
{
    match kind {
        PartKind::Frame => append_frame(out, frame),
        PartKind::Mark(hash) => append_mark(out, hash),
    }
}

/// Appends a frame as it is stored, with the number of its entries.
#[tactic(auto, using(wire_bytes::proofs::WriteLemmas::written), unfolding(crate::specs::PartStore::stored_bytes))]
fn append_stored_frame(out: &mut Vec<u8>, frame: &Frame) -> Result<(), NoMemory>
    ensures ok { OnOk result (out.new.items ≡ out.old.items ++ stored_bytes (part.Frame frame.now)) }
    ensures err { OnErr result (Extends out.old.items out.new.items) }
{
    write_u8(out, 1)?;
    write_u8(out, frame.len() as u8)?;
    append_entries(out, frame)
}

/// Stores a frame. Without memory `out` stays as it was.
pub(crate) fn store_frame(out: &mut Vec<u8>, frame: &Frame) -> Result<(), NoMemory>
    ensures ok { OnOk result (out.new.items ≡ out.old.items ++ stored_bytes (part.Frame frame.now)) }
    ensures err { OnErr result (out.new.items ≡ out.old.items) }
{
    let start = out.len();
    let stored = append_stored_frame(out, frame);
    if stored.is_err() {
        out.truncate(start);
    }
    stored
}

/// Stores a mark. Without memory `out` stays as it was.
#[tactic(auto, unfolding(crate::specs::PartStore::stored_bytes))]
pub(crate) fn store_mark(out: &mut Vec<u8>, hash: u64) -> Result<(), NoMemory>
    ensures ok { OnOk result (out.new.items ≡ out.old.items ++ stored_bytes (part.Mark hash)) }
    ensures err { OnErr result (out.new.items ≡ out.old.items) }
{
    let start = out.len();
    let stored = append_mark(out, hash);
    if stored.is_err() {
        out.truncate(start);
    }
    stored
}
