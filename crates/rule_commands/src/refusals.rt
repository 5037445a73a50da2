ghost use Rattle.std.specs.Prelude.{◌≡◌, ◌∷◌, [], map};
ghost use Rattle.yaml_lines.specs.Fault as line;
ghost use Rattle.yaml_merge.specs.Fault as merge;
ghost use Rattle.rule_traits.specs.Fault as rule;
ghost use Rattle.map_grid.specs.Fault as grid;
ghost use Rattle.rule_commands.specs.RuleFiles.{name_at};
ghost use Rattle.rule_commands.specs.Refusals.{IsFaultStop};

use command_answers::Stop;
use map_grid::MapFault;
use rule_traits::RuleFault;
use yaml_lines::{LineFault, Place};
use yaml_merge::MergeFault;

/// The name of the file with this number.
pub fn name_at<'a>(names: &[&'a str], file: u16) -> &'a str
    ensures { result.now ≡ name_at file (map (λ name. name.now) names.now) }
{
    match names.get(usize::from(file)) {
        Some(name) => name,
        None => "",
    }
}

/// Refuses a fault at this place of the rule files. A fault without a place is out of memory.
fn fault_stop<'a>(names: &[&'a str], place: Option<Place>, cause: &'static str) -> Stop<'a>
    ensures { IsFaultStop (map (λ name. name.now) names.now) place cause.now result }
{
    match place {
        Some(place) => Stop::Refused {
            name: name_at(names, place.file),
            place: u64::from(place.line),
            cause,
        },
        None => Stop::NoMemory,
    }
}

/// Refuses a fault of lines.
pub fn line_stop<'a>(names: &[&'a str], fault: &LineFault) -> Stop<'a>
    ensures { IsFaultStop (map (λ name. name.now) names.now)
        (line.place_of fault.now) (line.cause_of fault.now) result }
{
    fault_stop(names, fault.place(), fault.cause())
}

/// Refuses a fault of merging.
pub fn merge_stop<'a>(names: &[&'a str], fault: &MergeFault) -> Stop<'a>
    ensures { IsFaultStop (map (λ name. name.now) names.now)
        (merge.place_of fault.now) (merge.cause_of fault.now) result }
{
    fault_stop(names, fault.place(), fault.cause())
}

/// Refuses a fault of rules.
pub fn rule_stop<'a>(names: &[&'a str], fault: &RuleFault) -> Stop<'a>
    ensures { IsFaultStop (map (λ name. name.now) names.now)
        (rule.place_of fault.now) (rule.cause_of fault.now) result }
{
    fault_stop(names, fault.place(), fault.cause())
}

/// Refuses a fault of a map, whose file has this name.
pub fn map_stop<'a>(name: &'a str, fault: &MapFault) -> Stop<'a>
    ensures { IsFaultStop (name.now ∷ []) (grid.place_of fault.now) (grid.cause_of fault.now)
        result }
{
    fault_stop(&[name], fault.place(), fault.cause())
}
