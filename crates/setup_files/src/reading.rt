ghost use Rattle.std.specs.Prelude.{◌≤◌, ◌∷◌, [], length, map, IfOk};
ghost use Rattle.game_model.specs.ValidMap.{IsMapFor};
ghost use Rattle.map_grid.specs.MapOf.{map_of};
ghost use Rattle.rule_traits.specs.Typed.{typed};
ghost use Rattle.rule_traits.specs.ValidRules.{AreValidRules};
ghost use Rattle.yaml_lines.specs.Trees.{trees_of};
ghost use Rattle.yaml_merge.specs.Resolving.{resolved_files};
ghost use Rattle.setup_files.specs.declared.setup_fault.Part.TheVariants as part;
ghost use Rattle.setup_files.specs.Faults.{Gives};
ghost use Rattle.setup_files.specs.Reading.{kinds_step, map_step, merge_step, parsed_files};
ghost use Rattle.setup_files.specs.Reading.{resolved_of};

use crate::limits::MAX_RULE_FILES;
use crate::setup_fault::{Part, SetupFault, lines_fault, map_fault, merging_fault, rules_fault};
use game_model::Map;
use map_grid::read_map;
use rule_traits::{Rules, type_rules};
use std::alloc::Global;
use yaml_lines::{Forest, parse};
use yaml_merge::{resolve, resolve_file};

/// The forests of files.
fn parse_files(alloc: Global, part: Part, contents: &[Vec<u8>]) -> Result<Vec<Forest>, SetupFault>
    requires { length contents.now ≤ MAX_RULE_FILES }
    ensures { Gives result (λ forests. map trees_of forests.items)
        (parsed_files part (map (λ bytes. bytes.items) contents.now)) }
{
    let mut forests = Vec::new(alloc);
    let mut file = 0;
    for bytes in contents {
        match parse(alloc, file, bytes) {
            Ok(forest) => forests.push(forest)?,
            Err(fault) => return Err(lines_fault(part, fault)),
        }
        file += 1;
    }
    Ok(forests)
}

/// The parsed files as one resolved forest.
fn resolve_forests(alloc: Global, part: Part, forests: &[Forest]) -> Result<Forest, SetupFault>
    ensures { Gives result trees_of (merge_step part (resolved_files (map trees_of forests.now))) }
{
    match resolve(alloc, forests) {
        Ok(forest) => Ok(forest),
        Err(fault) => Err(merging_fault(part, fault)),
    }
}

/// The rule files as one resolved forest.
#[tactic(auto, unfolding(crate::specs::Reading::resolved_of))]
pub(crate) fn rules_forest(alloc: Global, contents: &[Vec<u8>]) -> Result<Forest, SetupFault>
    requires { length contents.now ≤ MAX_RULE_FILES }
    ensures { Gives result trees_of
        (resolved_of part.Rules (map (λ bytes. bytes.items) contents.now)) }
{
    let forests = parse_files(alloc, Part::Rules, contents)?;
    resolve_forests(alloc, Part::Rules, forests.as_slice())
}

/// The forest of a file that is read alone, resolved.
fn resolve_alone(alloc: Global, part: Part, forest: Forest) -> Result<Forest, SetupFault>
    ensures { Gives result trees_of (merge_step part (resolved_files (trees_of forest ∷ []))) }
{
    match resolve_file(alloc, forest) {
        Ok(resolved) => Ok(resolved),
        Err(fault) => Err(merging_fault(part, fault)),
    }
}

/// The resolved forest of a map, which is read as its own only file.
#[tactic(auto, unfolding(crate::specs::Reading::resolved_of))]
pub(crate) fn map_forest(alloc: Global, bytes: &[u8]) -> Result<Forest, SetupFault>
    ensures { Gives result trees_of (resolved_of part.Map (bytes.now ∷ [])) }
{
    match parse(alloc, 0, bytes) {
        Ok(forest) => resolve_alone(alloc, Part::Map, forest),
        Err(fault) => Err(lines_fault(Part::Map, fault)),
    }
}

/// The kinds of a resolved forest.
pub(crate) fn type_forest(alloc: Global, forest: &Forest) -> Result<Rules, SetupFault>
    ensures made { Gives result (λ rules. rules) (kinds_step (typed (trees_of forest.now))) }
    ensures valid { IfOk result AreValidRules }
{
    match type_rules(alloc, forest) {
        Ok((rules, _skipped)) => Ok(rules),
        Err(fault) => Err(rules_fault(fault)),
    }
}

/// The map of a resolved forest, for these rules.
pub(crate) fn map_of_forest(
    alloc: Global,
    rules: &Rules,
    forest: &Forest,
) -> Result<Map, SetupFault>
    ensures made { Gives result (λ made. made) (map_step (map_of rules.now (trees_of forest.now))) }
    ensures valid { IfOk result (IsMapFor rules.now) }
{
    match read_map(alloc, forest, rules) {
        Ok(made) => Ok(made),
        Err(fault) => Err(map_fault(fault)),
    }
}
