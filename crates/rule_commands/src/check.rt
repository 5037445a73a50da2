ghost use Rattle.std.specs.Prelude.{◌≡◌, ◌≤◌, ◌++◌, length, map, string_bytes, OnOk, IfOk};
ghost use Rattle.std.specs.Prelude.{option_map};
ghost use Rattle.rule_commands.specs.Checks.{skipped_lines, trait_names, kind_traits, kind_lines};
ghost use Rattle.rule_commands.specs.Checks.{check_lines, check_step};
ghost use Rattle.command_answers.specs.Given.{given_contents};
ghost use Rattle.rule_commands.specs.Maps.{map_lines, optional_map};
ghost use Rattle.command_answers.specs.Stop.{ReturnsStep};

use crate::refusals::name_at;
use crate::rules::{read_map_bytes, read_typed};
use base::NoMemory;
use command_answers::{GivenFiles, Stop};
use command_words::MAX_FILES;
use game_model::Map;
use rule_traits::{Kind, Rules, Skipped, SkippedList, Trait};
use std::alloc::Global;

/// A line for each node that was passed over.
#[tactic(auto, unfolding(crate::specs::Checks::skipped_line))]
fn write_skipped(text: &mut String, names: &[&str], nodes: &[Skipped]) -> Result<(), NoMemory>
    ensures { OnOk result (string_bytes text.new
        ≡ string_bytes text.old ++ skipped_lines (map (λ name. name.now) names.now) nodes.now) }
{
    for node in nodes {
        let file = name_at(names, node.place.file);
        let line = node.place.line;
        let key = node.key.as_str();
        writeln!(text, "skipped {file} {line} {key}")?;
    }
    Ok(())
}

/// The names of those of these traits that a kind has.
fn write_names(text: &mut String, kind: &Kind, traits: &[Trait]) -> Result<(), NoMemory>
    ensures { OnOk result
        (string_bytes text.new ≡ string_bytes text.old ++ trait_names kind.now traits.now) }
{
    for known in traits {
        if kind.has(*known) {
            let name = known.name();
            write!(text, " {name}")?;
        }
    }
    Ok(())
}

/// The names of a kind's traits.
#[tactic(auto, unfolding(crate::specs::Checks::kind_traits))]
fn write_traits(text: &mut String, kind: &Kind) -> Result<(), NoMemory>
    ensures { OnOk result (string_bytes text.new ≡ string_bytes text.old ++ kind_traits kind.now) }
{
    write_names(text, kind, &Trait::ALL)
}

/// A line for each kind.
#[tactic(auto, unfolding(crate::specs::Checks::kind_line))]
fn write_kinds(text: &mut String, kinds: &[Kind]) -> Result<(), NoMemory>
    ensures { OnOk result
        (string_bytes text.new ≡ string_bytes text.old ++ kind_lines 0 kinds.now) }
{
    for (number, kind) in kinds.iter().enumerate() {
        let name = kind.name.as_str();
        write!(text, "kind {number} {name}")?;
        write_traits(text, kind)?;
        text.push('\n')?;
    }
    Ok(())
}

/// The line of a map, if one is named.
#[tactic(auto, unfolding(crate::specs::Maps::map_line))]
fn write_map(text: &mut String, checked: &Option<Map>) -> Result<(), NoMemory>
    ensures { OnOk result
        (string_bytes text.new ≡ string_bytes text.old ++ map_lines checked.now) }
{
    if let Some(map) = checked {
        let (width, height) = (map.width, map.height);
        let actors = map.starts.len();
        writeln!(text, "map {width} {height} actors {actors}")?;
    }
    Ok(())
}

/// What was passed over, the kinds, the map, and `end`.
fn write_check(
    alloc: Global,
    names: &[&str],
    rules: &Rules,
    skipped: &SkippedList,
    checked: &Option<Map>,
) -> Result<String, NoMemory>
    ensures { IfOk result (λ text. string_bytes text
        ≡ check_lines (map (λ name. name.now) names.now) (rules.now, skipped.now) checked.now) }
{
    let mut text = String::new(alloc);
    write_skipped(&mut text, names, skipped.as_slice())?;
    write_kinds(&mut text, rules.kinds())?;
    write_map(&mut text, checked)?;
    text.push_str("end\n")?;
    Ok(text)
}

/// The map of a file for these rules, if one is named.
fn read_checked<'a>(
    alloc: Global,
    rules: &Rules,
    name: Option<&'a str>,
    given: &GivenFiles,
) -> Result<Option<Map>, Stop<'a>>
    ensures { ReturnsStep result (λ checked. checked) (optional_map rules.now
        (option_map (λ name. name.now) name.entry) (given_contents given.now).map_file) }
{
    match name {
        Some(name) => Ok(Some(read_map_bytes(alloc, rules, name, given.map_bytes())?)),
        None => Ok(None),
    }
}

/// The lines of typed rules, and of a map for them, if one is named.
pub fn check_text<'a>(
    alloc: Global,
    names: &[&'a str],
    map_file: Option<&'a str>,
    given: &GivenFiles,
) -> Result<Vec<u8>, Stop<'a>>
    requires { length given.now.rules.items ≤ MAX_FILES }
    ensures { ReturnsStep result (λ text. text.items) (check_step (map (λ name. name.now) names.now)
        (option_map (λ name. name.now) map_file.entry) (given_contents given.now)) }
{
    let (rules, skipped) = read_typed(alloc, names, &given.rules)?;
    let checked = read_checked(alloc, &rules, map_file, given)?;
    Ok(write_check(alloc, names, &rules, &skipped, &checked)?.into_bytes())
}
