ghost use Rattle.std.specs.Prelude.{◌≡◌};
ghost use Rattle.replay_file.specs.declared.part.Part.TheVariants as part;
ghost use Rattle.replay_file.specs.PartKind.{part_of};
ghost use Rattle.replay_run.specs.Passing.{compared, hash_by, passed, FitsPass};

use crate::difference::Difference;
use crate::first_hash::FirstHash;
use game_orders::Frame;
use replay_file::{FIRST_VERSION, PartKind};

/// What a replay gave so far, or in the end.
#[derive(Drop)]
pub struct Replayed<S> {
    /// The differing mark with the fewest frames before it, if one differs.
    pub difference: Option<Difference>,
    /// The number of frames.
    pub frames: u32,
    /// The world after them.
    pub world: S,
}

/// Compares a mark after so many frames with the hash here.
fn compared(frames: u32, file: u64, here: u64) -> Option<Difference>
    ensures { result ≡ compared frames file here }
{
    if file == here {
        None
    } else {
        Some(Difference { frames, file, here })
    }
}

/// The hash that a mark of a version has for a world.
fn hash_by<S: FirstHash>(world: &S, version: u16) -> u64
    ensures { result ≡ hash_by S.hash_of S.first_hash_of version world.now }
{
    if version == FIRST_VERSION {
        world.first_hash()
    } else {
        world.hash()
    }
}

impl<S: FirstHash> Replayed<S> {
    /// Goes on with a part of this kind of a replay of this version: steps the world by this frame,
    /// or compares a mark, if none differed before. A frame has an entry for each client of the
    /// world, which has made as many steps as there are frames so far, fewer than `MAX_FRAMES`.
    pub fn pass(&mut self, kind: PartKind, frame: &Frame, version: u16)
        requires { FitsPass S.clients_of S.steps self.old (part_of kind frame.now) }
        ensures value { self.new ≡ passed S.after (hash_by S.hash_of S.first_hash_of version)
            self.old (part_of kind frame.now) }
        ensures clients { S.clients_of self.new.world ≡ S.clients_of self.old.world }
        ensures steps { S.steps self.old.world ≡ self.old.frames →
            S.steps self.new.world ≡ self.new.frames }
    {
        match kind {
            PartKind::Frame => {
                self.world.step(frame);
                self.frames += 1;
            }
            PartKind::Mark(hash) => self.compare(hash, version),
        }
    }

    /// Compares a mark, if none differed before.
    pub(crate) fn compare(&mut self, file: u64, version: u16)
        ensures { self.new ≡ passed S.after (hash_by S.hash_of S.first_hash_of version)
            self.old (part.Mark file) }
    {
        if self.difference.is_none() {
            self.difference = compared(self.frames, file, hash_by(&self.world, version));
        }
    }
}
