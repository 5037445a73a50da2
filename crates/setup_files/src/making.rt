ghost use Rattle.std.specs.Prelude.{◌≡◌, ◌≤◌, ◌∷◌, [], length, map, option_map, Ok, IfOk};
ghost use Rattle.game_model.specs.ValidMap.{IsMapFor};
ghost use Rattle.rule_traits.specs.ValidRules.{AreValidRules};
ghost use Rattle.setup_files.specs.declared.setup_fault.Part.TheVariants as part;
ghost use Rattle.setup_files.specs.Faults.{Gives};
ghost use Rattle.setup_files.specs.Reading.{kinds_of_files, map_of_file, map_or_bare, map_text};
ghost use Rattle.setup_files.specs.Reading.{made_of, text_of};

use crate::limits::MAX_RULE_FILES;
use crate::numbers::rules_number;
use crate::reading::{map_forest, map_of_forest, rules_forest, type_forest};
use crate::setup_fault::SetupFault;
use game_model::Map;
use rule_traits::Rules;
use std::alloc::Global;
use std::rc::Rc;
use tick_core::{GameMaker, bare_map};
use yaml_lines::print;

/// What files make.
#[derive(Drop)]
pub struct Made {
    /// It makes the worlds of matches over their rules and their map.
    pub maker: GameMaker,
    /// The number of these rules and this map, by which replays and players know them.
    pub number: u64,
}

/// The kinds of rule files, and their resolved forest as text.
#[tactic(auto, unfolding(crate::specs::Reading::kinds_of_files))]
fn read_rules(alloc: Global, contents: &[Vec<u8>]) -> Result<(Rules, Vec<u8>), SetupFault>
    requires { length contents.now ≤ MAX_RULE_FILES }
    ensures made { Gives result (λ made. made.0)
        (kinds_of_files (map (λ bytes. bytes.items) contents.now)) }
    ensures valid { IfOk result (λ made. AreValidRules made.0) }
    ensures text { IfOk result (λ made. text_of part.Rules
        (map (λ bytes. bytes.items) contents.now) ≡ Ok made.1.items) }
{
    let forest = rules_forest(alloc, contents)?;
    let rules = type_forest(alloc, &forest)?;
    let text = print(alloc, &forest)?;
    Ok((rules, text))
}

/// The map of a file for these rules, and its resolved forest as text.
#[tactic(auto, unfolding(crate::specs::Reading::map_of_file))]
fn read_map_file(alloc: Global, rules: &Rules, bytes: &[u8]) -> Result<(Map, Vec<u8>), SetupFault>
    ensures made { Gives result (λ made. made.0) (map_of_file rules.now bytes.now) }
    ensures valid { IfOk result (λ made. IsMapFor rules.now made.0) }
    ensures text { IfOk result (λ made. text_of part.Map (bytes.now ∷ []) ≡ Ok made.1.items) }
{
    let forest = map_forest(alloc, bytes)?;
    let made = map_of_forest(alloc, rules, &forest)?;
    let text = print(alloc, &forest)?;
    Ok((made, text))
}

/// The same, or the bare map and no text, where there is no file.
fn read_map_or_bare(
    alloc: Global,
    rules: &Rules,
    file: Option<&[u8]>,
) -> Result<(Map, Vec<u8>), SetupFault>
    ensures made { Gives result (λ made. made.0)
        (map_or_bare rules.now (option_map (λ bytes. bytes.now) file.entry)) }
    ensures valid { IfOk result (λ made. IsMapFor rules.now made.0) }
    ensures text { IfOk result (λ made.
        map_text (option_map (λ bytes. bytes.now) file.entry) ≡ Ok made.1.items) }
{
    match file {
        Some(bytes) => read_map_file(alloc, rules, bytes),
        None => Ok((bare_map(alloc)?, Vec::new(alloc))),
    }
}

/// What rule files, in their order, and a map make. Without rule files there are no kinds, and
/// without a map it is the bare one.
#[tactic(auto, unfolding(crate::specs::Reading::setup_of, crate::specs::Reading::number_of))]
pub fn read_files(
    alloc: Global,
    contents: &[Vec<u8>],
    map_file: Option<&[u8]>,
) -> Result<Made, SetupFault>
    requires { length contents.now ≤ MAX_RULE_FILES }
    ensures { Gives result (λ made. made) (made_of (map (λ bytes. bytes.items) contents.now)
        (option_map (λ bytes. bytes.now) map_file.entry)) }
{
    let (rules, rules_text) = read_rules(alloc, contents)?;
    let (made, map_text) = read_map_or_bare(alloc, &rules, map_file)?;
    let number = rules_number(alloc, &rules_text, &map_text)?;
    let maker = GameMaker::new(Rc::new(alloc, rules)?, Rc::new(alloc, made)?);
    Ok(Made { maker, number })
}
