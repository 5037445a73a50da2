//! The commands that show what the frames of a replay make.
ghost use Rattle.std.specs.Prelude.{◌≤◌, length, None};
ghost use Rattle.command_words.specs.RequestPlain.{View, Worlds, plain_match, plain_range};
ghost use Rattle.command_answers.specs.Answer.{reply_of};
ghost use Rattle.command_answers.specs.Causes.{causes_of};
ghost use Rattle.command_answers.specs.Given.{replay_contents};
ghost use Rattle.command_answers.specs.Environment.{environment};
ghost use Rattle.command_answers.specs.Stop.{ReturnsStep};
ghost use Rattle.match_commands.specs.Run.{RunsRequest};
ghost use Rattle.match_commands.specs.Views.{viewed_step};
ghost use Rattle.match_commands.specs.Worlds.{PrintsWorlds};

use command_answers::{
    Answer, GivenFiles, InputFile, Stop, print_answer, print_stop, read_played_files,
};
use command_words::{MAX_FILES, MatchQuery, WorldRange};
use game_io::{Disk, Sink};
use rule_commands::read_numbered_maker;
use std::alloc::Global;
use tick_core::GameMaker;
use view_command::view_answer;
use worlds_command::print_worlds;

/// The answer to `view` for this client.
fn answer_view<'a>(
    alloc: Global,
    query: &MatchQuery<'a>,
    client: u32,
    given: &(GivenFiles, Vec<u8>),
) -> Result<Answer<'a>, Stop<'a>>
    requires { length given.now.0.rules.items ≤ MAX_FILES }
    ensures { ReturnsStep result reply_of
        (viewed_step (plain_match query.now) client (replay_contents given.now)) }
{
    let (files, bytes) = given;
    let (maker, number) = read_numbered_maker(
        alloc,
        query.rules.as_slice(),
        query.map_file,
        files,
    )?;
    view_answer(alloc, query.file, client, number, &maker, bytes)
}

/// The command `view`: reads rule files, a map for them, if one is named, and a replay, runs it,
/// and prints which cells a client sees in the end and which it has explored.
pub(crate) fn run_view<D: Disk, K: Sink>(
    alloc: Global,
    query: &MatchQuery<'_>,
    client: u32,
    disk: &mut D,
    out: &mut K,
) -> u8
    requires { length query.now.rules ≤ MAX_FILES }
    ensures { let old = environment (D.state disk.old) (K.state out.old) in
        let new = environment (D.state disk.new) (K.state out.new) in
        RunsRequest (View (plain_match query.now) client) result
        (causes_of None old new) old new }
{
    let names = query.rules.as_slice();
    match read_played_files(
        alloc,
        disk,
        names,
        query.map_file,
        InputFile::Replay(query.file),
    ) {
        Ok(given) => print_answer(alloc, disk, answer_view(alloc, query, client, &given), out),
        Err(stop) => print_stop(alloc, stop, out),
    }
}

/// Prints the worlds of a replay over what it stands on, or why the command ended before them.
fn print_range<K: Sink>(
    alloc: Global,
    query: &MatchQuery<'_>,
    range: WorldRange,
    given: &(GivenFiles, Vec<u8>),
    made: Result<(GameMaker, u64), Stop<'_>>,
    out: &mut K,
) -> u8
    ensures prints { PrintsWorlds (plain_match query.now) (plain_range range) given.now.1.items
        made.entry result (K.state out.old) (K.state out.new) }
    ensures later { (K.state out.old).faults ≤ (K.state out.new).faults }
{
    let (_files, bytes) = given;
    match made {
        Ok((maker, number)) => print_worlds(
            alloc,
            query.file,
            range.from,
            range.to,
            range.every,
            number,
            &maker,
            bytes,
            out,
        ),
        Err(stop) => print_stop(alloc, stop, out),
    }
}

/// The command `worlds`: reads rule files, a map for them, if one is named, and a replay, and
/// prints the kinds, the map, and the worlds after the numbers of frames in the range.
pub(crate) fn run_worlds_query<D: Disk, K: Sink>(
    alloc: Global,
    query: &MatchQuery<'_>,
    range: WorldRange,
    disk: &mut D,
    out: &mut K,
) -> u8
    requires { length query.now.rules ≤ MAX_FILES }
    ensures { let old = environment (D.state disk.old) (K.state out.old) in
        let new = environment (D.state disk.new) (K.state out.new) in
        RunsRequest (Worlds (plain_match query.now) (plain_range range)) result
        (causes_of None old new) old new }
{
    let names = query.rules.as_slice();
    match read_played_files(
        alloc,
        disk,
        names,
        query.map_file,
        InputFile::Replay(query.file),
    ) {
        Ok(given) => {
            let made = read_numbered_maker(alloc, names, query.map_file, &given.0);
            print_range(alloc, query, range, &given, made, out)
        }
        Err(stop) => print_stop(alloc, stop, out),
    }
}
