ghost use Rattle.std.specs.Prelude.{◌≡◌, None};

use crate::disk::Disk;
use crate::disk_error::DiskError;
use crate::whole_file::write_whole;
use base::FaultCount;
use std::alloc::Global;
use std::io::{ErrorKind, Read};
use std::rt::Files;
use std::{fs, io};

/// The files of the system, under their paths. Their contents are opaque.
///
/// A name that is a regular file, or none, has its old bytes or all new ones: these are written beside
/// it and take its place. Other names, as that of a device, are written in place.
#[derive(Drop)]
pub struct FileDisk<'a, R: Files + AllocGlobal> {
    rt: &'a R,
    faults: FaultCount,
}

impl<'a, R: Files + AllocGlobal> FileDisk<'a, R> {
    /// The files of this runtime, with no fault yet.
    pub fn new(rt: &'a R) -> Self
        ensures { result.faults ≡ 0 }
    {
        FileDisk {
            rt,
            faults: FaultCount::new(),
        }
    }
}

/// The first bytes of a file, at most so many.
fn read_prefix<R: Files>(rt: &R, alloc: Global, name: &str, most: u64) -> io::Result<Vec<u8>> {
    let mut bytes = Vec::new(alloc);
    fs::File::open(rt, name)?
        .take(most)
        .read_to_end(&mut bytes)?;
    Ok(bytes)
}

impl<R: Files + AllocGlobal> Disk for FileDisk<'_, R> {
    ghost state = { λ d. record { files = None; faults = d.faults } };

    fn faults(&self) -> u64 {
        self.faults.get()
    }

    /// It reads at most one byte more than `limit`.
    fn read_file(&mut self, alloc: Global, name: &str, limit: u32) -> Result<Vec<u8>, DiskError> {
        match read_prefix(self.rt, alloc, name, u64::from(limit) + 1) {
            Ok(bytes) => {
                if bytes.len() > limit as usize {
                    self.faults.raise();
                    return Err(DiskError::TooLong);
                }
                Ok(bytes)
            }
            Err(error) => {
                self.faults.raise();
                match error.kind() {
                    ErrorKind::NotFound => Err(DiskError::Missing),
                    ErrorKind::OutOfMemory => Err(DiskError::NoMemory),
                    _ => Err(DiskError::Failed),
                }
            }
        }
    }

    fn write_file(&mut self, _alloc: Global, name: &str, bytes: &[u8]) -> Result<(), DiskError> {
        match write_whole(self.rt, name, bytes) {
            Ok(()) => Ok(()),
            Err(_) => {
                self.faults.raise();
                Err(DiskError::Failed)
            }
        }
    }
}
