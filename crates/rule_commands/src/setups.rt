ghost use Rattle.std.specs.Prelude.{◌≤◌, length, map, option_map, IfOk};
ghost use Rattle.game_model.specs.ValidMap.{IsMapFor, IsSetup};
ghost use Rattle.command_answers.specs.Given.{given_contents};
ghost use Rattle.command_answers.specs.Stop.{ReturnsStep};
ghost use Rattle.rule_commands.specs.Setups.{map_or_bare, setup_step};

use crate::rules::{read_map_bytes, read_typed};
use command_answers::{GivenFiles, Stop};
use command_words::MAX_FILES;
use game_model::Map;
use rule_traits::Rules;
use std::alloc::Global;
use std::rc::Rc;
use tick_core::{GameMaker, bare_map};

/// The map of a file for these rules, or the bare map, where no file is named.
fn read_map_or_bare<'a>(
    alloc: Global,
    rules: &Rules,
    name: Option<&'a str>,
    given: &GivenFiles,
) -> Result<Map, Stop<'a>>
    ensures made { ReturnsStep result (λ made. made) (map_or_bare rules.now
        (option_map (λ name. name.now) name.entry) (given_contents given.now).map_file) }
    ensures valid { IfOk result (IsMapFor rules.now) }
{
    match name {
        Some(name) => read_map_bytes(alloc, rules, name, given.map_bytes()),
        None => Ok(bare_map(alloc)?),
    }
}

/// The rules and the map of files on which a match stands. Without rule files there are no kinds,
/// and without a map it is the bare one.
#[tactic(auto, unfolding(crate::specs::Setups::setup_step))]
pub fn read_setup<'a>(
    alloc: Global,
    names: &[&'a str],
    map_file: Option<&'a str>,
    given: &GivenFiles,
) -> Result<(Rules, Map), Stop<'a>>
    requires { length given.now.rules.items ≤ MAX_FILES }
    ensures made { ReturnsStep result (λ setup. record { rules = setup.0; map = setup.1 })
        (setup_step (map (λ name. name.now) names.now) (given_contents given.now).rules
        (option_map (λ name. name.now) map_file.entry) (given_contents given.now).map_file) }
    ensures valid { IfOk result (λ setup. IsSetup (record { rules = setup.0; map = setup.1 })) }
{
    let (rules, _skipped) = read_typed(alloc, names, &given.rules)?;
    let made = read_map_or_bare(alloc, &rules, map_file, given)?;
    Ok((rules, made))
}

/// A maker of the worlds of a match that stands on these files.
pub fn read_maker<'a>(
    alloc: Global,
    names: &[&'a str],
    map_file: Option<&'a str>,
    given: &GivenFiles,
) -> Result<GameMaker, Stop<'a>>
    requires { length given.now.rules.items ≤ MAX_FILES }
    ensures { ReturnsStep result (λ maker. maker)
        (setup_step (map (λ name. name.now) names.now) (given_contents given.now).rules
        (option_map (λ name. name.now) map_file.entry) (given_contents given.now).map_file) }
{
    let (rules, made) = read_setup(alloc, names, map_file, given)?;
    Ok(GameMaker::new(Rc::new(alloc, rules)?, Rc::new(alloc, made)?))
}
