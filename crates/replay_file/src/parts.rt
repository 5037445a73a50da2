//! The list of a replay's parts, in little memory.
ghost use Rattle.std.specs.Prelude.{◌≡◌, ◌<◌, ◌+◌, ◌∷◌, [], ◌++◌, length, OnOk, OnErr};
ghost use Rattle.std.specs.List.{AllByRecursion};
ghost use Rattle.replay_file.specs.declared.part.Part.TheVariants as part;
ghost use Rattle.replay_file.specs.Frames.{frames_of};
ghost use Rattle.replay_file.specs.PartBytes.{FitsPart};
ghost use Rattle.replay_file.specs.PartKind.{part_of};
ghost use Rattle.replay_file.specs.PartStore.{all_stored, stored_bytes, parts_in, IsStore};

use crate::part_cursor::PartCursor;
use crate::part_fits::frame_fits;
use crate::part_kind::PartKind;
use crate::part_writing::{store_frame, store_mark};
use base::NoMemory;
use game_orders::Frame;
use std::alloc::Global;
use std::marker::Model;

/// The parts of a replay, in order. A part takes as many bytes as in a file, and a frame one more.
#[derive(Drop)]
pub struct Parts {
    bytes: Vec<u8>,
    frames: usize,
}

impl Model for Parts {
    ghost use Rattle.std.specs.Prelude.{◌≡◌, List};
    ghost use Rattle.std.specs.List.{AllByRecursion};
    ghost use Rattle.replay_file.specs.declared.part.Part.{Part};
    ghost use Rattle.replay_file.specs.PartBytes.{FitsPart};
    ghost use Rattle.replay_file.specs.PartStore.{all_stored, parts_in};
    ghost use Rattle.replay_file.specs.PartStore.{IsCountedStore};

    ghost Value = { List Part };

    ghost view = { λ parts. parts_in parts.bytes.items };

    ghost invariant = { λ parts. IsCountedStore parts.bytes.items parts.frames };
}

/// One more than this number, which is less than the number of these bytes.
fn one_more(count: usize, bytes: &[u8]) -> usize
    requires { count < length bytes.now }
    ensures { result ≡ count + 1 }
{
    let _len = bytes.len();
    count + 1
}

impl Parts {
    /// No parts.
    pub fn new(alloc: Global) -> Parts
        ensures { result ≡ [] }
    {
        Parts {
            bytes: Vec::new(alloc),
            frames: 0,
        }
    }

    /// Adds a frame last. It fails only where it is out of memory, and then nothing changes.
    pub fn push_frame(&mut self, frame: &Frame) -> Result<(), NoMemory>
        ensures ok { OnOk result (self.new ≡ self.old ++ part.Frame frame.now ∷ []) }
        ensures err { OnErr result (self.new ≡ self.old) }
        ensures fits { FitsPart (part.Frame frame.now) }
    {
        frame_fits(frame);
        store_frame(&mut self.bytes, frame)?;
        self.frames = one_more(self.frames, self.bytes.as_slice());
        Ok(())
    }

    /// Adds a mark last. It fails only where it is out of memory, and then nothing changes.
    pub fn push_mark(&mut self, hash: u64) -> Result<(), NoMemory>
        ensures ok { OnOk result (self.new ≡ self.old ++ part.Mark hash ∷ []) }
        ensures err { OnErr result (self.new ≡ self.old) }
        ensures fits { FitsPart (part.Mark hash) }
    {
        store_mark(&mut self.bytes, hash)
    }

    /// Adds a part of this kind last, with the entries of `frame` where it is a frame. It fails only
    /// where it is out of memory, and then nothing changes.
    pub fn push(&mut self, kind: PartKind, frame: &Frame) -> Result<(), NoMemory>
        ensures ok { OnOk result (self.new ≡ self.old ++ part_of kind frame.now ∷ []) }
        ensures err { OnErr result (self.new ≡ self.old) }
        ensures fits { FitsPart (part_of kind frame.now) }
    {
        match kind {
            PartKind::Frame => self.push_frame(frame),
            PartKind::Mark(hash) => self.push_mark(hash),
        }
    }

    /// The number of frames.
    pub fn frame_count(&self) -> usize
        ensures { result ≡ length (frames_of self.now) }
    {
        let _bytes = &self.bytes;
        self.frames
    }

    /// The parts, to be gone over from the first.
    pub fn iter(&self) -> PartCursor<'_>
        ensures { result ≡ self.now }
    {
        PartCursor::over(self.bytes.as_slice())
    }

    /// The bytes that store the parts.
    pub(crate) fn stored(&self) -> &[u8]
        ensures bytes { result.now ≡ all_stored self.now }
        ensures store { IsStore result.now }
        ensures parts { parts_in result.now ≡ self.now }
    {
        self.bytes.as_slice()
    }

    /// The numbers of the parts that code holds fit their fields. The call does nothing.
    pub fn fit(&self)
        ensures { AllByRecursion FitsPart self.now }
    {
        let _bytes = &self.bytes;
    }
}
