//! What a match stands on, with the number by which a replay or a player knows it.
ghost use Rattle.std.specs.Prelude.{◌≡◌, ◌≤◌, ◌∷◌, [], length, map, option_map, Ok, IfOk};
ghost use Rattle.command_answers.specs.Given.{given_contents};
ghost use Rattle.command_answers.specs.Stop.{ReturnsStep};
ghost use Rattle.game_model.specs.ValidMap.{IsMapFor};
ghost use Rattle.rule_traits.specs.ValidRules.{AreValidRules};
ghost use Rattle.rule_commands.specs.Maps.{map_step, typed_rules};
ghost use Rattle.rule_commands.specs.Numbers.{numbered_setup_step, printed_map};
ghost use Rattle.rule_commands.specs.RuleFiles.{yaml_step};
ghost use Rattle.rule_commands.specs.Setups.{map_or_bare};

use crate::rules::{map_forest, map_of_forest, resolve_rules, type_forest};
use command_answers::{GivenFiles, Stop};
use command_words::MAX_FILES;
use game_model::Map;
use rule_traits::{Rules, SkippedList};
use setup_files::rules_number;
use std::alloc::Global;
use std::rc::Rc;
use tick_core::{GameMaker, bare_map};
use yaml_lines::print;

/// The kinds of rule files, what was passed over in them, and their resolved forest as text.
#[tactic(auto, unfolding(crate::specs::Maps::typed_rules))]
fn read_printed_rules<'a>(
    alloc: Global,
    names: &[&'a str],
    contents: &[Vec<u8>],
) -> Result<(Rules, SkippedList, Vec<u8>), Stop<'a>>
    requires { length contents.now ≤ MAX_FILES }
    ensures made { ReturnsStep result (λ made. (made.0, made.1)) (typed_rules
        (map (λ name. name.now) names.now) (map (λ bytes. bytes.items) contents.now)) }
    ensures valid { IfOk result (λ made. AreValidRules made.0) }
    ensures text { IfOk result (λ made. yaml_step (map (λ name. name.now) names.now)
        (map (λ bytes. bytes.items) contents.now) ≡ Ok made.2.items) }
{
    let forest = resolve_rules(alloc, names, contents)?;
    let (rules, skipped) = type_forest(alloc, names, &forest)?;
    let text = print(alloc, &forest)?;
    Ok((rules, skipped, text))
}

/// The map of a file for these rules, and its resolved forest as text.
#[tactic(auto, unfolding(crate::specs::Maps::map_step))]
fn read_printed_map<'a>(
    alloc: Global,
    rules: &Rules,
    name: &'a str,
    bytes: &[u8],
) -> Result<(Map, Vec<u8>), Stop<'a>>
    ensures made { ReturnsStep result (λ made. made.0) (map_step rules.now name.now bytes.now) }
    ensures valid { IfOk result (λ made. IsMapFor rules.now made.0) }
    ensures text { IfOk result
        (λ made. yaml_step (name.now ∷ []) (bytes.now ∷ []) ≡ Ok made.1.items) }
{
    let forest = map_forest(alloc, name, bytes)?;
    let made = map_of_forest(alloc, rules, name, &forest)?;
    let text = print(alloc, &forest)?;
    Ok((made, text))
}

/// The same, or the bare map and no text, where no file is named.
fn read_printed_map_or_bare<'a>(
    alloc: Global,
    rules: &Rules,
    name: Option<&'a str>,
    given: &GivenFiles,
) -> Result<(Map, Vec<u8>), Stop<'a>>
    ensures made { ReturnsStep result (λ made. made.0) (map_or_bare rules.now
        (option_map (λ name. name.now) name.entry) (given_contents given.now).map_file) }
    ensures valid { IfOk result (λ made. IsMapFor rules.now made.0) }
    ensures text { IfOk result (λ made. printed_map (option_map (λ name. name.now) name.entry)
        (given_contents given.now).map_file ≡ Ok made.1.items) }
{
    match name {
        Some(name) => read_printed_map(alloc, rules, name, given.map_bytes()),
        None => Ok((bare_map(alloc)?, Vec::new(alloc))),
    }
}

/// A maker of the worlds of a match that stands on these files, and the number of its rules and its
/// map. Rules and map are parsed, merged and resolved once each.
#[tactic(auto, unfolding(crate::specs::Setups::setup_step, crate::specs::Numbers::number_step))]
pub fn read_numbered_maker<'a>(
    alloc: Global,
    names: &[&'a str],
    map_file: Option<&'a str>,
    given: &GivenFiles,
) -> Result<(GameMaker, u64), Stop<'a>>
    requires { length given.now.rules.items ≤ MAX_FILES }
    ensures { ReturnsStep result (λ made. made)
        (numbered_setup_step (map (λ name. name.now) names.now)
        (option_map (λ name. name.now) map_file.entry) (given_contents given.now)) }
{
    let (rules, _skipped, rules_text) = read_printed_rules(alloc, names, &given.rules)?;
    let (made, map_text) = read_printed_map_or_bare(alloc, &rules, map_file, given)?;
    let number = rules_number(alloc, &rules_text, &map_text)?;
    let maker = GameMaker::new(Rc::new(alloc, rules)?, Rc::new(alloc, made)?);
    Ok((maker, number))
}
