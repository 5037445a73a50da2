ghost use Rattle.std.specs.Prelude.{◌≡◌};
ghost use Rattle.c_worlds.specs.Faults.{fault_of, line_number, map_number, merge_number};
ghost use Rattle.c_worlds.specs.Faults.{number_of, rule_number};

use map_grid::MapFault;
use rule_traits::RuleFault;
use setup_files::{Part, SetupFault};
use yaml_lines::LineFault;
use yaml_merge::MergeFault;

/// The first fault of files, as C reads it.
#[repr(C)]
#[derive(Drop)]
pub struct CFault {
    /// The number of the cause: 1 to 5 of lines, 11 to 15 of merging, 21 to 25 of traits, 31 to 37
    /// of the map.
    pub cause: u32,
    /// The number of the file: those of the rules from 0, then the map's.
    pub file: u32,
    /// The line from 1, or 0 where the map has no `Size`.
    pub place: u64,
}

fn line_number(fault: &LineFault) -> u32
    ensures { result ≡ line_number fault.now }
{
    match fault {
        LineFault::NotUtf8 { .. } => 1,
        LineFault::BadIndent { .. } => 2,
        LineFault::TooDeep { .. } => 3,
        LineFault::LineTooLong { .. } => 4,
        LineFault::TooManyLines { .. } => 5,
        LineFault::NoMemory => 0,
    }
}

fn merge_number(fault: &MergeFault) -> u32
    ensures { result ≡ merge_number fault.now }
{
    match fault {
        MergeFault::NoParent { .. } => 11,
        MergeFault::Cycle { .. } => 12,
        MergeFault::NothingToRemove { .. } => 13,
        MergeFault::TooLarge { .. } => 14,
        MergeFault::TooDeep { .. } => 15,
        MergeFault::NoMemory => 0,
    }
}

fn rule_number(fault: &RuleFault) -> u32
    ensures { result ≡ rule_number fault.now }
{
    match fault {
        RuleFault::BadValue { .. } => 21,
        RuleFault::OutOfRange { .. } => 22,
        RuleFault::MissingField { .. } => 23,
        RuleFault::UnknownKindName { .. } => 24,
        RuleFault::TooManyKinds { .. } => 25,
        RuleFault::NoMemory => 0,
    }
}

fn map_number(fault: &MapFault) -> u32
    ensures { result ≡ map_number fault.now }
{
    match fault {
        MapFault::BadField { .. } => 31,
        MapFault::BadRow { .. } => 32,
        MapFault::UnknownTerrain { .. } => 33,
        MapFault::UnknownKind { .. } => 34,
        MapFault::CellTaken { .. } => 35,
        MapFault::BadOwner { .. } => 36,
        MapFault::TooManyActors { .. } => 37,
        MapFault::NoMemory => 0,
    }
}

/// The number of the cause of a fault.
fn number_of(fault: &SetupFault) -> u32
    ensures { result ≡ number_of fault.now }
{
    match fault {
        SetupFault::Lines(_, fault) => line_number(fault),
        SetupFault::Merging(_, fault) => merge_number(fault),
        SetupFault::Rules(fault) => rule_number(fault),
        SetupFault::Map(fault) => map_number(fault),
        SetupFault::NoMemory => 0,
    }
}

/// A fault as C reads it, of so many rule files.
pub(crate) fn fault_of(fault: &SetupFault, rule_files: u32) -> CFault
    ensures { result ≡ fault_of fault.now rule_files }
{
    let (number, line) = match fault.place() {
        Some(place) => (u32::from(place.file), u64::from(place.line)),
        None => (0, 0),
    };
    let file = match fault.part() {
        Part::Rules => number,
        Part::Map => rule_files,
    };
    CFault {
        cause: number_of(fault),
        file,
        place: line,
    }
}
