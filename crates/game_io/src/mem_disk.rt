ghost use Rattle.std.specs.Prelude.{◌≡◌, ℕ, List, [], ◌∷◌, Some, Option, OnOk, OnErr, IfSome};
ghost use Rattle.std.specs.Prelude.{IfNone, IsSome, IsErr, Err};
ghost use Rattle.std.specs.Option.{option_map};
ghost use Rattle.game_io.specs.declared.disk_error.DiskError.TheVariants.{Failed};
ghost use Rattle.game_io.specs.DiskState.{ReadsFile, WritesFile, OnFailed};
ghost use Rattle.game_io.specs.Plan.{next_remains, fresh, called};
ghost use Rattle.game_io.specs.PlannedFiles.{PlannedFiles, content_after, disk_state, files_of};

use crate::disk::Disk;
use crate::disk_error::DiskError;
use crate::failing_call::FailingCall;
use crate::schedule::Schedule;
use crate::sure_disk::SureDisk;
use base::NoMemory;
use std::alloc::Global;
use std::marker::Model;

/// Files in memory, and a disk in which chosen calls fail. Reads and writes are numbered together.
#[derive(Drop)]
pub struct MemDisk {
    disk: SureDisk,
    schedule: Schedule,
}

impl Model for MemDisk {
    ghost Value = { PlannedFiles };

    ghost view = { λ d. record { list = d.disk; plan = d.schedule } };
}

impl MemDisk {
    /// No files, and the calls of `read_file` and `write_file` that are to fail.
    pub fn new(alloc: Global, failing: Vec<FailingCall>) -> Self
        ensures list { result.list ≡ [] }
        ensures plan { result.plan ≡ fresh failing.items }
    {
        MemDisk {
            disk: SureDisk::new(alloc),
            schedule: Schedule::new(failing),
        }
    }

    /// The bytes of the file of that name, where it is there.
    pub fn file(&self, name: &str) -> Option<&[u8]>
        ensures { option_map (λ bytes. bytes.now) result ≡ files_of self.now.list name.now }
    {
        self.disk.file(name)
    }

    /// Gives the file of that name these bytes. This counts as no call. It fails only where it is
    /// out of memory, and then nothing changes.
    pub fn add(&mut self, alloc: Global, name: &str, bytes: &[u8]) -> Result<(), NoMemory>
        ensures ok { OnOk result
            (self.new.list ≡ record { name = name.now; content = Some bytes.now } ∷ self.old.list) }
        ensures err { OnErr result (self.new.list ≡ self.old.list) }
        ensures plan { self.new.plan ≡ self.old.plan }
    {
        self.disk.add(alloc, name, bytes)
    }
}

impl Disk for MemDisk {
    ghost state = { λ d. disk_state d };

    fn faults(&self) -> u64 {
        self.schedule.faults()
    }

    fn read_file(&mut self, alloc: Global, name: &str, limit: u32) -> Result<Vec<u8>, DiskError>
        ensures reads { ReadsFile (disk_state self.old) (disk_state self.new)
            name.now limit result }
        ensures planned { IsSome (next_remains self.old.plan) →
            IsSome (files_of self.old.list name.now) → result ≡ Err Failed }
        ensures other { IfNone (next_remains self.old.plan) (OnFailed result ⊥) }
        ensures plan { self.new.plan ≡ called self.old.plan }
    {
        let failing = self.schedule.next();
        if failing.is_some() && self.disk.file(name).is_some() {
            return Err(DiskError::Failed);
        }
        self.disk.read_file(alloc, name, limit)
    }

    fn write_file(&mut self, alloc: Global, name: &str, bytes: &[u8]) -> Result<(), DiskError>
        ensures writes { WritesFile (disk_state self.old) (disk_state self.new)
            name.now bytes.now result }
        ensures planned { IfSome (next_remains self.old.plan)
            (λ remains. IsErr result × OnFailed result (files_of self.new.list name.now
            ≡ content_after remains (files_of self.old.list name.now) bytes.now)) }
        ensures other { IfNone (next_remains self.old.plan) (OnFailed result ⊥) }
        ensures plan { self.new.plan ≡ called self.old.plan }
    {
        match self.schedule.next() {
            None => self.disk.write_file(alloc, name, bytes),
            Some(remains) => match self.disk.leave(alloc, name, bytes, remains) {
                Ok(()) => Err(DiskError::Failed),
                Err(_) => Err(DiskError::NoMemory),
            },
        }
    }
}
