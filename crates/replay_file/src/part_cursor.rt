ghost use Rattle.std.specs.Prelude.{◌≡◌, drop};
ghost use Rattle.wire_bytes.specs.Read.{Reads};
ghost use Rattle.replay_file.specs.declared.part.Part.TheVariants as part;
ghost use Rattle.replay_file.specs.PartKind.{next_of, part_of, with_value};
ghost use Rattle.replay_file.specs.PartStore.{counted_frame, parts_in, stored_at, TakesPart};
ghost use Rattle.replay_file.specs.PartStore.{EndsStore, IsStore, IsStoreAfter};

use crate::departed::Departed;
use crate::limits::GREATEST_TAG;
use crate::part_fault::PartFault;
use crate::part_kind::PartKind;
use crate::part_reading::{read_entries, read_mark};
use game_orders::{Frame, MAX_CLIENTS};
use std::marker::Model;
use wire_bytes::Cursor;

/// The parts of a replay that are left, from the first on.
#[derive(Drop)]
pub struct PartCursor<'a> {
    left: Cursor<'a>,
}

impl<'a> Model for PartCursor<'a> {
    ghost use Rattle.std.specs.Prelude.{List};
    ghost use Rattle.replay_file.specs.declared.part.Part.{Part};
    ghost use Rattle.replay_file.specs.PartStore.{parts_in};
    ghost use Rattle.replay_file.specs.PartStore.{IsStore};

    ghost Value = { List Part };

    ghost view = { λ parts. parts_in parts.left };

    ghost invariant = { λ parts. IsStore parts.left };
}

/// Reads the entries of a stored frame, in the place of those that this one has.
#[tactic(auto, unfolding(crate::specs::PartStore::counted_frame))]
fn read_counted(c: &mut Cursor<'_>, count: u8, frame: &mut Frame) -> Result<(), PartFault>
    ensures { Reads (counted_frame count) c.old c.new
        (with_value (λ _. part.Frame frame.new) result) }
{
    if count > MAX_CLIENTS {
        return Err(PartFault::Bad);
    }
    let nobody = Departed::nobody(count);
    read_entries(c, GREATEST_TAG, nobody.as_slice(), frame)
}

/// Reads a stored part. The entries of a frame come in the place of those that this one has.
#[tactic(auto, unfolding(crate::specs::PartStore::stored_at))]
fn read_stored(c: &mut Cursor<'_>, frame: &mut Frame) -> Result<PartKind, PartFault>
    ensures { Reads stored_at c.old c.new (with_value (λ kind. part_of kind frame.new) result) }
{
    let tag = c.read_u8()?;
    match tag {
        1 => {
            let count = c.read_u8()?;
            read_counted(c, count, frame)?;
            Ok(PartKind::Frame)
        }
        2 => {
            let hash = read_mark(c)?;
            Ok(PartKind::Mark(hash))
        }
        _ => Err(PartFault::Bad),
    }
}

/// Takes the first part of stored bytes off. The entries of a frame come in the place of those that
/// `frame` has. None exactly where no byte is left.
fn take_first(left: &mut Cursor<'_>, frame: &mut Frame) -> Option<PartKind>
    requires { IsStore left.old }
    ensures taken { TakesPart (parts_in left.old) (parts_in left.new) (next_of result frame.new) }
    ensures ends { EndsStore left.old left.new }
{
    if left.left() == 0 {
        return None;
    }
    let Ok(kind) = read_stored(left, frame) else {
        unreachable!()
    };
    Some(kind)
}

/// Takes off the first part of those that are stored after the first `read` bytes, as
/// [`PartCursor::next_into`] does.
pub(crate) fn take_after(bytes: &[u8], read: &mut usize, frame: &mut Frame) -> Option<PartKind>
    requires { IsStoreAfter read.old bytes.now }
    ensures taken { TakesPart (parts_in (drop read.old bytes.now))
        (parts_in (drop read.new bytes.now)) (next_of result frame.new) }
    ensures ends { IsStoreAfter read.new bytes.now }
{
    let (_, after) = bytes.split_at(*read);
    let mut left = Cursor::over(after);
    let kind = take_first(&mut left, frame);
    *read = bytes.len() - left.left();
    kind
}

impl<'a> PartCursor<'a> {
    /// The parts that these bytes store.
    pub(crate) fn over(bytes: &'a [u8]) -> Self
        requires { IsStore bytes.now }
        ensures { result ≡ parts_in bytes.entry.now }
    {
        PartCursor {
            left: Cursor::over(bytes),
        }
    }

    /// The next part. The entries of a frame come in the place of those that `frame` has, so the
    /// room of one serves a whole replay. None exactly where no part is left.
    pub fn next_into(&mut self, frame: &mut Frame) -> Option<PartKind>
        ensures { TakesPart self.old self.new (next_of result frame.new) }
    {
        take_first(&mut self.left, frame)
    }
}
