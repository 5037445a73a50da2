ghost use Rattle.std.specs.Prelude.{◌≡◌};
ghost use Rattle.setup_files.specs.Faults.{lines_fault, merging_fault, rules_fault, map_fault};

use base::NoMemory;
use map_grid::MapFault;
use rule_traits::RuleFault;
use std::alloc::AllocFailed;
use thiserror::Error;
use yaml_lines::{LineFault, Place};
use yaml_merge::MergeFault;

/// Which files.
#[derive(Clone, Copy, Debug, PartialEq, Eq)]
pub enum Part {
    /// The rule files, numbered from 0.
    Rules,
    /// The map, whose number is 0.
    Map,
}

/// Why files make nothing that a match can stand on: their first fault.
#[derive(Debug, Drop, Error)]
pub enum SetupFault {
    /// Comes at the first line at fault of the first file that has one.
    #[error("{1}")]
    Lines(Part, LineFault),
    /// Comes at the first fault of merging and inheriting.
    #[error("{1}")]
    Merging(Part, MergeFault),
    /// Comes at the first fault of the traits of kinds.
    #[error("{0}")]
    Rules(RuleFault),
    /// Comes at the first fault of the map's fields.
    #[error("{0}")]
    Map(MapFault),
    /// Out of memory. It may come in place of any other answer.
    #[error("out of memory")]
    NoMemory,
}

impl SetupFault {
    ghost use Rattle.setup_files.specs.Faults.{cause_of, part_of, place_of};

    /// Which files are at fault. Out of memory counts as the rules.
    pub fn part(&self) -> Part
        ensures { result ≡ part_of self.now }
    {
        match self {
            SetupFault::Lines(part, _) | SetupFault::Merging(part, _) => *part,
            SetupFault::Rules(_) | SetupFault::NoMemory => Part::Rules,
            SetupFault::Map(_) => Part::Map,
        }
    }

    /// The place at fault: a line of a file of this part. `None` comes exactly where it is out of
    /// memory.
    pub fn place(&self) -> Option<Place>
        ensures { result ≡ place_of self.now }
    {
        match self {
            SetupFault::Lines(_, fault) => fault.place(),
            SetupFault::Merging(_, fault) => fault.place(),
            SetupFault::Rules(fault) => fault.place(),
            SetupFault::Map(fault) => fault.place(),
            SetupFault::NoMemory => None,
        }
    }

    /// The cause: the name of the variant of the fault, as it is printed.
    pub fn cause(&self) -> &'static str
        ensures { result.now ≡ cause_of self.now }
    {
        match self {
            SetupFault::Lines(_, fault) => fault.cause(),
            SetupFault::Merging(_, fault) => fault.cause(),
            SetupFault::Rules(fault) => fault.cause(),
            SetupFault::Map(fault) => fault.cause(),
            SetupFault::NoMemory => "NoMemory",
        }
    }
}

impl From<NoMemory> for SetupFault {
    ghost use Rattle.setup_files.specs.declared.setup_fault.SetupFault.TheVariants.{NoMemory};

    ghost from_gives = { λ _ fault. fault ≡ NoMemory };

    fn from(_error: NoMemory) -> Self {
        SetupFault::NoMemory
    }
}

impl<T: Drop> From<AllocFailed<T>> for SetupFault {
    ghost use Rattle.setup_files.specs.declared.setup_fault.SetupFault.TheVariants.{NoMemory};

    ghost from_gives = { λ _ fault. fault ≡ NoMemory };

    fn from(_error: AllocFailed<T>) -> Self {
        SetupFault::NoMemory
    }
}

/// A fault of lines, or out of memory.
pub(crate) fn lines_fault(part: Part, fault: LineFault) -> SetupFault
    ensures { result ≡ lines_fault part fault }
{
    match fault {
        LineFault::NoMemory => SetupFault::NoMemory,
        fault => SetupFault::Lines(part, fault),
    }
}

/// A fault of merging, or out of memory.
pub(crate) fn merging_fault(part: Part, fault: MergeFault) -> SetupFault
    ensures { result ≡ merging_fault part fault }
{
    match fault {
        MergeFault::NoMemory => SetupFault::NoMemory,
        fault => SetupFault::Merging(part, fault),
    }
}

/// A fault of traits, or out of memory.
pub(crate) fn rules_fault(fault: RuleFault) -> SetupFault
    ensures { result ≡ rules_fault fault }
{
    match fault {
        RuleFault::NoMemory => SetupFault::NoMemory,
        fault => SetupFault::Rules(fault),
    }
}

/// A fault of a map, or out of memory.
pub(crate) fn map_fault(fault: MapFault) -> SetupFault
    ensures { result ≡ map_fault fault }
{
    match fault {
        MapFault::NoMemory => SetupFault::NoMemory,
        fault => SetupFault::Map(fault),
    }
}
