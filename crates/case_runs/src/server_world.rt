ghost use Rattle.std.specs.Prelude.{◌≤◌, length};

use crate::case::Case;
use crate::world_fields::world_fields;
use base::NoMemory;
use command_answers::{GivenFiles, InputFile, read_played_files};
use command_words::{MAX_FILES, MatchQuery, Request, read_arguments};
use drill::run_without_report;
use drill_words::{Drill, MAX_DRILL_BYTES, read_drill};
use game_io::Disk;
use game_model::World;
use rule_commands::read_maker;
use std::alloc::Global;
use tick_core::GameMaker;

/// The world that a drill leaves its server in, field by field. There is none where a case is no
/// drill, or a file of it is refused.
pub fn server_world(alloc: Global, case: &Case<'_>) -> Result<Option<String>, NoMemory> {
    let Ok(Request::Drill { query, .. }) = read_arguments(alloc, &case.words) else {
        return Ok(None);
    };
    let mut disk = case.disk(alloc)?;
    match read_and_run(alloc, &query, &mut disk)? {
        Some(world) => Ok(Some(world_fields(alloc, &world)?)),
        None => Ok(None),
    }
}

/// Reads the files of a drill and runs it. There is no world where a file is refused.
fn read_and_run<D: Disk>(
    alloc: Global,
    query: &MatchQuery<'_>,
    disk: &mut D,
) -> Result<Option<World>, NoMemory>
    requires { length query.now.rules ≤ MAX_FILES }
{
    let names = query.rules.as_slice();
    let played = InputFile::Script(query.file);
    match read_played_files(alloc, disk, names, query.map_file, played) {
        Ok((given, script)) => run_given(alloc, query, &given, &script),
        Err(_) => Ok(None),
    }
}

/// Runs a drill over what its files hold. There is no world where a file has a fault.
fn run_given(
    alloc: Global,
    query: &MatchQuery<'_>,
    given: &GivenFiles,
    script: &[u8],
) -> Result<Option<World>, NoMemory>
    requires rules { length given.now.rules.items ≤ MAX_FILES }
    requires script { length script.now ≤ MAX_DRILL_BYTES }
{
    let names = query.rules.as_slice();
    let Ok(maker) = read_maker(alloc, names, query.map_file, given) else {
        return Ok(None);
    };
    let Ok(drill) = read_drill(alloc, script) else {
        return Ok(None);
    };
    Ok(Some(run(alloc, &drill, &maker)?))
}

/// Runs a drill, and takes the world in which it leaves the server.
fn run(alloc: Global, drill: &Drill, maker: &GameMaker) -> Result<World, NoMemory> {
    let left = run_without_report(alloc, drill, maker)?;
    left.server.sim().snapshot(alloc)
}
