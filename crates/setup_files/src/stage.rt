ghost use Rattle.std.specs.Prelude.{◌≡◌, ◌≢◌, ◌<◌, ◌↔◌, length, map, option_map, true, None};
ghost use Rattle.std.specs.Prelude.{IsTrue};
ghost use Rattle.std.specs.Prelude.{is_some};
ghost use Rattle.std.specs.Prelude.{IfOk, OnOk, OnErr, IfErr};
ghost use Rattle.std.specs.Option.{option_copied};
ghost use Rattle.base.specs.Steps.{IsFault};
ghost use Rattle.setup_files.specs.declared.setup_fault.SetupFault.TheVariants.{NoMemory};
ghost use Rattle.setup_files.specs.Reading.{made_of};
ghost use Rattle.setup_files.specs.Stage.{is_made, no_files, stage_read, with_map, with_rules};

use crate::limits::MAX_RULE_FILES;
use crate::making::{Made, read_files};
use crate::setup_fault::SetupFault;
use base::NoMemory;
use std::alloc::{AllocError, Global};
use std::marker::Model;

/// The files of a setup, at most [`MAX_RULE_FILES`] of rules and a map, and once they are read
/// without a fault what they make.
pub struct Stage {
    rules: Vec<Vec<u8>>,
    map_file: Option<Vec<u8>>,
    made: Option<Made>,
}

// By hand, so that what drops one needs no proof of how its parts are dropped.
impl Drop for Stage {
    fn drop(self) {
        let Self {
            rules: _,
            map_file: _,
            made: _,
        } = self;
    }
}

impl Model for Stage {
    ghost use Rattle.std.specs.Prelude.{map, option_map};
    ghost use Rattle.setup_files.specs.Stage.{StageState, IsStage};

    ghost Value = { StageState };

    ghost view = { λ s. record {
      rules = map (λ bytes. bytes.items) s.rules.items;
      map_file = option_map (λ bytes. bytes.items) s.map_file;
      made = s.made;
    } };

    ghost invariant = { λ s. IsStage (record {
      rules = map (λ bytes. bytes.items) s.rules.items;
      map_file = option_map (λ bytes. bytes.items) s.map_file;
      made = s.made;
    }) };
}

/// Copies of files.
fn copies_of(alloc: Global, files: &[Vec<u8>]) -> Result<Vec<Vec<u8>>, NoMemory>
    ensures { IfOk result (λ copies.
        map (λ bytes. bytes.items) copies.items ≡ map (λ bytes. bytes.items) files.now) }
{
    let mut copies = Vec::new(alloc);
    for bytes in files {
        copies.push(bytes.as_slice().to_vec(alloc)?)?;
    }
    Ok(copies)
}

/// A copy of a file, where there is one.
fn copy_of(alloc: Global, file: &Option<Vec<u8>>) -> Result<Option<Vec<u8>>, NoMemory>
    ensures { IfOk result (λ copy.
        option_map (λ bytes. bytes.items) copy ≡ option_map (λ bytes. bytes.items) file.now) }
{
    match file {
        Some(bytes) => Ok(Some(bytes.as_slice().to_vec(alloc)?)),
        None => Ok(None),
    }
}

impl Stage {
    /// No files.
    pub fn new(alloc: Global) -> Stage
        ensures { result ≡ no_files }
    {
        Stage {
            rules: Vec::new(alloc),
            map_file: None,
            made: None,
        }
    }

    /// Whether the files were read without a fault. Then no more are taken.
    pub fn is_read(&self) -> bool
        ensures { result ≡ is_some self.now.made }
    {
        self.made.is_some()
    }

    /// The number of rule files, at most [`MAX_RULE_FILES`].
    pub fn rule_count(&self) -> u32
        ensures { result ≡ length self.now.rules }
    {
        self.rules.len() as u32
    }

    /// What the files make. `None` exactly where they were not read without a fault.
    pub fn made(&self) -> Option<&Made>
        ensures { option_copied result ≡ self.now.made }
    {
        self.made.as_ref()
    }

    /// Adds a copy of a rule file after the others, where none were read yet. False exactly where
    /// there are [`MAX_RULE_FILES`], and then nothing changes. Out of memory is the only error, and
    /// then nothing has changed.
    pub fn add_rules(&mut self, alloc: Global, bytes: &[u8]) -> Result<bool, NoMemory>
        requires { self.old.made ≡ None }
        ensures room { IfOk result (λ added. IsTrue added ↔
            (length self.old.rules < MAX_RULE_FILES)) }
        ensures after { IfOk result (λ added. self.new ≡ with_rules self.old bytes.now) }
        ensures err { OnErr result (self.new ≡ self.old) }
    {
        if self.rules.len() >= MAX_RULE_FILES {
            return Ok(false);
        }
        let copy = bytes.to_vec(alloc)?;
        self.rules.push(copy)?;
        Ok(true)
    }

    /// Takes a copy of the map's file, where none were read yet. False exactly where there is one,
    /// and then nothing changes. Out of memory is the only error, and then nothing has changed.
    pub fn add_map(&mut self, alloc: Global, bytes: &[u8]) -> Result<bool, NoMemory>
        requires { self.old.made ≡ None }
        ensures room { IfOk result (λ added. IsTrue added ↔ (self.old.map_file ≡ None)) }
        ensures after { IfOk result (λ added. self.new ≡ with_map self.old bytes.now) }
        ensures err { OnErr result (self.new ≡ self.old) }
    {
        if self.map_file.is_some() {
            return Ok(false);
        }
        self.map_file = Some(bytes.to_vec(alloc)?);
        Ok(true)
    }

    /// Reads the files, where they were not read yet. Their first fault is the error, or out of
    /// memory, and then nothing has changed.
    pub fn read(&mut self, alloc: Global) -> Result<(), SetupFault>
        requires { self.old.made ≡ None }
        ensures made { OnOk result (is_made (made_of self.old.rules self.old.map_file) ≡ true) }
        ensures after { OnOk result (self.new ≡ stage_read self.old) }
        ensures fault { IfErr result (λ fault.
            IsFault NoMemory fault (made_of self.old.rules self.old.map_file)) }
        ensures err { OnErr result (self.new ≡ self.old) }
    {
        let map = self.map_file.as_ref().map(|bytes| bytes.as_slice());
        self.made = Some(read_files(alloc, self.rules.as_slice(), map)?);
        Ok(())
    }

    /// The same once more, read anew from copies of the bytes, where they were read without a
    /// fault. It shares nothing with this one. Out of memory is its only error.
    #[tactic(auto, using(crate::proofs::FaultLemmas::same_made))]
    pub fn again(&self, alloc: Global) -> Result<Stage, NoMemory>
        requires { self.now.made ≢ None }
        ensures { IfOk result (λ stage. stage ≡ self.now) }
    {
        let rules = copies_of(alloc, self.rules.as_slice())?;
        let map_file = copy_of(alloc, &self.map_file)?;
        let map = map_file.as_ref().map(|bytes| bytes.as_slice());
        match read_files(alloc, rules.as_slice(), map) {
            Ok(made) => Ok(Stage {
                rules,
                map_file,
                made: Some(made),
            }),
            Err(_) => Err(AllocError),
        }
    }
}
