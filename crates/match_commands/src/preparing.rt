ghost use Rattle.std.specs.Prelude.{◌≤◌, length};
ghost use Rattle.drill_words.specs.Drill.{plain_of};
ghost use Rattle.command_words.specs.RequestPlain.{plain_match};
ghost use Rattle.command_answers.specs.Given.{script_contents};
ghost use Rattle.command_answers.specs.Stop.{ReturnsStep};
ghost use Rattle.match_commands.specs.Drills.{numbered_step, prepared_step, script_step};

use command_answers::{GivenFiles, Stop, drill_stop};
use command_words::{MAX_FILES, MatchQuery};
use drill_words::{Drill, MAX_DRILL_BYTES, read_drill};
use rule_commands::{read_maker, read_numbered_maker};
use std::alloc::Global;
use tick_core::GameMaker;

/// The drill of these bytes, which are those of the file of this name.
fn parse_drill<'a>(alloc: Global, name: &'a str, bytes: &[u8]) -> Result<Drill, Stop<'a>>
    requires { length bytes.now ≤ MAX_DRILL_BYTES }
    ensures { ReturnsStep result plain_of (script_step name.now bytes.now) }
{
    match read_drill(alloc, bytes) {
        Ok(drill) => Ok(drill),
        Err(fault) => Err(drill_stop(name, &fault)),
    }
}

/// What the drill stands on, and the drill.
pub(crate) fn prepare_drill<'a>(
    alloc: Global,
    query: &MatchQuery<'a>,
    given: &(GivenFiles, Vec<u8>),
) -> Result<(GameMaker, Drill), Stop<'a>>
    requires rules { length given.now.0.rules.items ≤ MAX_FILES }
    requires script { length given.now.1.items ≤ MAX_DRILL_BYTES }
    ensures { ReturnsStep result (λ made. (made.0, plain_of made.1))
        (prepared_step (plain_match query.now) (script_contents given.now)) }
{
    let (files, script) = given;
    let maker = read_maker(alloc, query.rules.as_slice(), query.map_file, files)?;
    let drill = parse_drill(alloc, query.file, script)?;
    Ok((maker, drill))
}

/// The same, with the rules number of the match.
pub(crate) fn prepare_recorded<'a>(
    alloc: Global,
    query: &MatchQuery<'a>,
    given: &(GivenFiles, Vec<u8>),
) -> Result<(GameMaker, Drill, u64), Stop<'a>>
    requires rules { length given.now.0.rules.items ≤ MAX_FILES }
    requires script { length given.now.1.items ≤ MAX_DRILL_BYTES }
    ensures { ReturnsStep result (λ made. (made.0, plain_of made.1, made.2))
        (numbered_step (plain_match query.now) (script_contents given.now)) }
{
    let (files, script) = given;
    let names = query.rules.as_slice();
    let (maker, number) = read_numbered_maker(alloc, names, query.map_file, files)?;
    let drill = parse_drill(alloc, query.file, script)?;
    Ok((maker, drill, number))
}
