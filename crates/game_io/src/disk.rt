ghost use Rattle.std.specs.Prelude.{◌≡◌};

use crate::disk_error::DiskError;
use std::alloc::Global;

/// Files by their names.
pub trait Disk {
    ghost use Rattle.game_io.specs.DiskState.{DiskState, ReadsFile, WritesFile};

    /// The files, where they are observable, and how often it has failed, up to the greatest `u64`.
    ghost state: { Self → DiskState };

    /// The number of faults so far. It never falls.
    fn faults(&self) -> u64
        ensures { result ≡ (state self.now).faults };

    /// All the bytes of the file `name`, which are at most `limit`. No file changes.
    ///
    /// Refusals: `Missing` exactly where there is no such file; `Failed`, only where the count of
    /// faults rose in this call; `TooLong` exactly where the file has more than `limit` bytes;
    /// `NoMemory`. Of an opaque disk `Missing` and `TooLong` come only where the count rose.
    fn read_file(&mut self, alloc: Global, name: &str, limit: u32) -> Result<Vec<u8>, DiskError>
        ensures { ReadsFile (state self.old) (state self.new) name.now limit result };

    /// Makes `bytes` the content of the file `name`, and changes no other file.
    ///
    /// Refusals: `Failed`, only where the count of faults rose in this call, and then the file
    /// holds what it held, isn't there, or holds a prefix of `bytes`; `NoMemory`, and then no file
    /// changed. It never answers `Missing` or `TooLong`.
    fn write_file(&mut self, alloc: Global, name: &str, bytes: &[u8]) -> Result<(), DiskError>
        ensures { WritesFile (state self.old) (state self.new) name.now bytes.now result };
}
