ghost use Rattle.std.specs.Prelude.{◌≤◌, ◌∷◌, [], map, length, IfOk};
ghost use Rattle.game_model.specs.ValidMap.{IsMapFor};
ghost use Rattle.rule_traits.specs.ValidRules.{AreValidRules};
ghost use Rattle.yaml_lines.specs.Trees.{trees_of};
ghost use Rattle.map_grid.specs.MapOf.{map_of};
ghost use Rattle.rule_traits.specs.Typed.{typed};
ghost use Rattle.yaml_merge.specs.Resolving.{resolved_files};
ghost use Rattle.rule_commands.specs.Maps.{made_step, map_step, typed_rules, typed_step};
ghost use Rattle.rule_commands.specs.RuleFiles.{merge_step, parsed_files, resolved_rules};
ghost use Rattle.rule_commands.specs.RuleFiles.{yaml_step};
ghost use Rattle.command_answers.specs.Stop.{ReturnsStep};

use crate::refusals::{line_stop, map_stop, merge_stop, rule_stop};
use command_answers::Stop;
use command_words::MAX_FILES;
use game_model::Map;
use map_grid::read_map;
use rule_traits::{Rules, SkippedList, type_rules};
use std::alloc::Global;
use yaml_lines::{Forest, parse, print};
use yaml_merge::{resolve, resolve_file};

/// The forests of all files.
fn parse_files<'a>(
    alloc: Global,
    names: &[&'a str],
    contents: &[Vec<u8>],
) -> Result<Vec<Forest>, Stop<'a>>
    requires { length contents.now ≤ MAX_FILES }
    ensures { ReturnsStep result (λ forests. map trees_of forests.items)
        (parsed_files (map (λ name. name.now) names.now)
        (map (λ bytes. bytes.items) contents.now)) }
{
    let mut forests = Vec::new(alloc);
    let mut file = 0;
    for bytes in contents {
        match parse(alloc, file, bytes) {
            Ok(forest) => forests.push(forest)?,
            Err(fault) => return Err(line_stop(names, &fault)),
        }
        file += 1;
    }
    Ok(forests)
}

/// The parsed files as one resolved forest.
fn resolve_forests<'a>(
    alloc: Global,
    names: &[&'a str],
    forests: &[Forest],
) -> Result<Forest, Stop<'a>>
    ensures { ReturnsStep result trees_of (merge_step (map (λ name. name.now) names.now)
        (resolved_files (map trees_of forests.now))) }
{
    match resolve(alloc, forests) {
        Ok(forest) => Ok(forest),
        Err(fault) => Err(merge_stop(names, &fault)),
    }
}

/// The files as one resolved forest.
#[tactic(auto, unfolding(crate::specs::RuleFiles::resolved_rules))]
pub fn resolve_rules<'a>(
    alloc: Global,
    names: &[&'a str],
    contents: &[Vec<u8>],
) -> Result<Forest, Stop<'a>>
    requires { length contents.now ≤ MAX_FILES }
    ensures { ReturnsStep result trees_of (resolved_rules
        (map (λ name. name.now) names.now) (map (λ bytes. bytes.items) contents.now)) }
{
    let forests = parse_files(alloc, names, contents)?;
    resolve_forests(alloc, names, forests.as_slice())
}

/// The resolved forest as text.
pub fn yaml_text<'a>(
    alloc: Global,
    names: &[&'a str],
    contents: &[Vec<u8>],
) -> Result<Vec<u8>, Stop<'a>>
    requires { length contents.now ≤ MAX_FILES }
    ensures { ReturnsStep result (λ text. text.items)
        (yaml_step (map (λ name. name.now) names.now) (map (λ bytes. bytes.items) contents.now)) }
{
    let forest = resolve_rules(alloc, names, contents)?;
    Ok(print(alloc, &forest)?)
}

/// The kinds of a resolved forest, and what was passed over in it.
pub(crate) fn type_forest<'a>(
    alloc: Global,
    names: &[&'a str],
    forest: &Forest,
) -> Result<(Rules, SkippedList), Stop<'a>>
    ensures made { ReturnsStep result (λ made. made)
        (typed_step (map (λ name. name.now) names.now) (typed (trees_of forest.now))) }
    ensures valid { IfOk result (λ made. AreValidRules made.0) }
{
    match type_rules(alloc, forest) {
        Ok(made) => Ok(made),
        Err(fault) => Err(rule_stop(names, &fault)),
    }
}

/// The kinds of rule files, and what was passed over in them.
#[tactic(auto, unfolding(crate::specs::Maps::typed_rules))]
pub fn read_typed<'a>(
    alloc: Global,
    names: &[&'a str],
    contents: &[Vec<u8>],
) -> Result<(Rules, SkippedList), Stop<'a>>
    requires { length contents.now ≤ MAX_FILES }
    ensures made { ReturnsStep result (λ made. made) (typed_rules
        (map (λ name. name.now) names.now) (map (λ bytes. bytes.items) contents.now)) }
    ensures valid { IfOk result (λ made. AreValidRules made.0) }
{
    let forest = resolve_rules(alloc, names, contents)?;
    type_forest(alloc, names, &forest)
}

/// The forest of a file that is read alone, resolved.
fn resolve_alone<'a>(alloc: Global, name: &'a str, forest: Forest) -> Result<Forest, Stop<'a>>
    ensures { ReturnsStep result trees_of
        (merge_step (name.now ∷ []) (resolved_files (trees_of forest ∷ []))) }
{
    match resolve_file(alloc, forest) {
        Ok(resolved) => Ok(resolved),
        Err(fault) => Err(merge_stop(&[name], &fault)),
    }
}

/// The resolved forest of a map's file, which is read alone.
#[tactic(auto, unfolding(crate::specs::RuleFiles::resolved_rules))]
pub(crate) fn map_forest<'a>(alloc: Global, name: &'a str, bytes: &[u8]) -> Result<Forest, Stop<'a>>
    ensures { ReturnsStep result trees_of (resolved_rules (name.now ∷ []) (bytes.now ∷ [])) }
{
    match parse(alloc, 0, bytes) {
        Ok(forest) => resolve_alone(alloc, name, forest),
        Err(fault) => Err(line_stop(&[name], &fault)),
    }
}

/// The map of a resolved forest, for these rules. Its file has this name.
pub(crate) fn map_of_forest<'a>(
    alloc: Global,
    rules: &Rules,
    name: &'a str,
    forest: &Forest,
) -> Result<Map, Stop<'a>>
    ensures made { ReturnsStep result (λ made. made)
        (made_step name.now (map_of rules.now (trees_of forest.now))) }
    ensures valid { IfOk result (IsMapFor rules.now) }
{
    match read_map(alloc, forest, rules) {
        Ok(made) => Ok(made),
        Err(fault) => Err(map_stop(name, &fault)),
    }
}

/// The map of a file, for these rules.
#[tactic(auto, unfolding(crate::specs::Maps::map_step))]
pub fn read_map_bytes<'a>(
    alloc: Global,
    rules: &Rules,
    name: &'a str,
    bytes: &[u8],
) -> Result<Map, Stop<'a>>
    ensures made { ReturnsStep result (λ made. made) (map_step rules.now name.now bytes.now) }
    ensures valid { IfOk result (IsMapFor rules.now) }
{
    let forest = map_forest(alloc, name, bytes)?;
    map_of_forest(alloc, rules, name, &forest)
}
