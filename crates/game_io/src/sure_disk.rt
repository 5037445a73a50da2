ghost use Rattle.std.specs.Prelude.{◌≡◌, ℕ, List, [], ◌∷◌, Option, Some, OnOk, OnErr};
ghost use Rattle.std.specs.Option.{option_map};
ghost use Rattle.game_io.specs.DiskState.{LeftPartly};
ghost use Rattle.game_io.specs.PlannedFiles.{NamedFile, content_after, files_of};

use crate::disk::Disk;
use crate::disk_error::DiskError;
use crate::failing_call::Remains;
use crate::remaining::remaining;
use crate::stored_file::StoredFile;
use base::NoMemory;
use std::alloc::Global;
use std::marker::Model;

/// Files in memory that never fail: the count of faults is always 0.
#[derive(Drop)]
pub struct SureDisk {
    files: Vec<StoredFile>,
}

impl Model for SureDisk {
    ghost Value = { List NamedFile };

    ghost view = { λ d. d.files.items };
}

impl SureDisk {
    /// No files.
    pub fn new(alloc: Global) -> Self
        ensures { result ≡ [] }
    {
        SureDisk {
            files: Vec::new(alloc),
        }
    }

    /// The bytes of the file of that name, where it is there.
    pub fn file(&self, name: &str) -> Option<&[u8]>
        ensures { option_map (λ bytes. bytes.now) result ≡ files_of self.now name.now }
    {
        for file in &self.files {
            if file.name.as_str() == name {
                return match &file.content {
                    Some(bytes) => Some(bytes.as_slice()),
                    None => None,
                };
            }
        }
        None
    }

    /// Gives the file of that name this content, or takes it away. It fails only where it is out of
    /// memory, and then nothing changes.
    pub(crate) fn set(
        &mut self,
        alloc: Global,
        name: &str,
        content: Option<Vec<u8>>,
    ) -> Result<(), NoMemory>
        ensures ok { OnOk result (self.new
            ≡ record {
              name = name.now;
              content = option_map (λ bytes. bytes.items) content;
            } ∷ self.old) }
        ensures err { OnErr result (self.new ≡ self.old) }
    {
        let name = String::from_str(alloc, name)?;
        self.files.insert(0, StoredFile { name, content })?;
        Ok(())
    }

    /// Gives the file of that name these bytes. It fails only where it is out of memory, and then
    /// nothing changes.
    pub fn add(&mut self, alloc: Global, name: &str, bytes: &[u8]) -> Result<(), NoMemory>
        ensures ok { OnOk result
            (self.new ≡ record { name = name.now; content = Some bytes.now } ∷ self.old) }
        ensures err { OnErr result (self.new ≡ self.old) }
    {
        let content = Vec::from_slice(alloc, bytes)?;
        self.set(alloc, name, Some(content))
    }
}

impl SureDisk {
    /// Leaves of the file of that name what is to remain of it after a write of these bytes that
    /// fails.
    pub(crate) fn leave(
        &mut self,
        alloc: Global,
        name: &str,
        bytes: &[u8],
        remains: Remains,
    ) -> Result<(), NoMemory>
        ensures partly { OnOk result
            (LeftPartly (Some (files_of self.old)) (Some (files_of self.new)) name.now bytes.now) }
        ensures content { OnOk result (files_of self.new name.now
            ≡ content_after remains (files_of self.old name.now) bytes.now) }
        ensures err { OnErr result (self.new ≡ self.old) }
    {
        match remains {
            Remains::Old => Ok(()),
            Remains::Nothing => self.set(alloc, name, None),
            Remains::Prefix(_) => self.add(alloc, name, remaining(remains, bytes)),
        }
    }
}

impl Disk for SureDisk {
    ghost state = { λ d. record { files = Some (files_of d); faults = 0 } };

    fn faults(&self) -> u64 {
        0
    }

    fn read_file(&mut self, alloc: Global, name: &str, limit: u32) -> Result<Vec<u8>, DiskError> {
        let Some(bytes) = self.file(name) else {
            return Err(DiskError::Missing);
        };
        if bytes.len() > limit as usize {
            return Err(DiskError::TooLong);
        }
        match Vec::from_slice(alloc, bytes) {
            Ok(copy) => Ok(copy),
            Err(_) => Err(DiskError::NoMemory),
        }
    }

    fn write_file(&mut self, alloc: Global, name: &str, bytes: &[u8]) -> Result<(), DiskError> {
        match self.add(alloc, name, bytes) {
            Ok(()) => Ok(()),
            Err(_) => Err(DiskError::NoMemory),
        }
    }
}
