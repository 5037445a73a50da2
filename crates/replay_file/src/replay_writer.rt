ghost use Rattle.std.specs.Prelude.{◌≡◌, ◌++◌, IfOk, OnOk, OnErr};
ghost use Rattle.replay_file.specs.declared.limits.TheConstants.{VERSION};
ghost use Rattle.replay_file.specs.declared.part.Part.TheVariants as part;
ghost use Rattle.replay_file.specs.PartBytes.{end_bytes, part_bytes, FitsPart};
ghost use Rattle.replay_file.specs.ReplayBytes.{header_bytes};

use crate::limits::VERSION;
use crate::part_fits::frame_fits;
use crate::part_writing::{append_frame, append_mark};
use crate::replay_writing::append_header;
use base::NoMemory;
use game_orders::Frame;
use std::alloc::Global;
use std::marker::Model;
use wire_bytes::write_u8;

/// The bytes of a replay of the version that is written, part by part. The one error is out of
/// memory.
#[derive(Drop)]
pub struct ReplayWriter {
    bytes: Vec<u8>,
}

impl Model for ReplayWriter {
    ghost use Rattle.std.specs.Prelude.{ℕ, List};

    ghost Value = { List ℕ };

    ghost view = { λ writer. writer.bytes.items };
}

impl ReplayWriter {
    /// Begins with the header.
    pub fn create(
        alloc: Global,
        rules: u64,
        seed: u32,
        clients: u8,
    ) -> Result<ReplayWriter, NoMemory>
        ensures { IfOk result (λ writer. writer ≡ header_bytes VERSION rules seed clients) }
    {
        let mut bytes = Vec::new(alloc);
        append_header(&mut bytes, VERSION, rules, seed, clients)?;
        Ok(ReplayWriter { bytes })
    }

    /// Adds a frame. It fails only where it is out of memory, and then nothing changes.
    pub fn push_frame(&mut self, frame: &Frame) -> Result<(), NoMemory>
        ensures added { OnOk result (self.new ≡ self.old ++ part_bytes (part.Frame frame.now)) }
        ensures err { OnErr result (self.new ≡ self.old) }
        ensures fits { FitsPart (part.Frame frame.now) }
    {
        frame_fits(frame);
        let start = self.bytes.len();
        let added = append_frame(&mut self.bytes, frame);
        if added.is_err() {
            self.bytes.truncate(start);
        }
        added
    }

    /// Adds a mark. It fails only where it is out of memory, and then nothing changes.
    #[tactic(auto, unfolding(crate::specs::PartBytes::part_bytes))]
    pub fn push_mark(&mut self, hash: u64) -> Result<(), NoMemory>
        ensures added { OnOk result (self.new ≡ self.old ++ part_bytes (part.Mark hash)) }
        ensures err { OnErr result (self.new ≡ self.old) }
    {
        let start = self.bytes.len();
        let added = append_mark(&mut self.bytes, hash);
        if added.is_err() {
            self.bytes.truncate(start);
        }
        added
    }

    /// Adds the end, and returns all bytes.
    pub fn finish(self) -> Result<Vec<u8>, NoMemory>
        ensures { IfOk result (λ bytes. bytes.items ≡ self ++ end_bytes) }
    {
        let mut bytes = self.bytes;
        write_u8(&mut bytes, 0)?;
        Ok(bytes)
    }
}
