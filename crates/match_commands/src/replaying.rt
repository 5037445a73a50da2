//! The commands on replays.
ghost use Rattle.std.specs.Prelude.{◌≤◌, length, None, Some, IfOk};
ghost use Rattle.command_words.specs.RequestPlain.{Migrate, Replay, plain_match};
ghost use Rattle.command_answers.specs.Answer.{reply_of};
ghost use Rattle.command_answers.specs.Causes.{causes_of};
ghost use Rattle.command_answers.specs.Given.{replay_contents};
ghost use Rattle.command_answers.specs.Environment.{environment};
ghost use Rattle.command_answers.specs.Stop.{ReturnsStep};
ghost use Rattle.match_commands.specs.KeptMatches.{KeepsIfDone, KeepsReplay};
ghost use Rattle.match_commands.specs.Replayed.{migrated_step, replayed_step};
ghost use Rattle.match_commands.specs.Run.{RunsRequest};

use command_answers::{
    Answer, GivenFiles, InputFile, Stop, print_answer, print_stop, read_played_files,
};
use command_words::{MAX_FILES, MatchQuery};
use game_io::{Disk, Sink};
use replay_commands::{migrate_answer, replay_answer};
use rule_commands::read_numbered_maker;
use std::alloc::Global;

/// The answer to `replay`.
fn answer_replay<'a>(
    alloc: Global,
    query: &MatchQuery<'a>,
    given: &(GivenFiles, Vec<u8>),
) -> Result<Answer<'a>, Stop<'a>>
    requires { length given.now.0.rules.items ≤ MAX_FILES }
    ensures { ReturnsStep result reply_of
        (replayed_step (plain_match query.now) (replay_contents given.now)) }
{
    let (files, bytes) = given;
    let (maker, number) = read_numbered_maker(
        alloc,
        query.rules.as_slice(),
        query.map_file,
        files,
    )?;
    replay_answer(alloc, query.file, number, &maker, bytes)
}

/// The answer to `migrate`, which writes the file `to`.
fn answer_migrate<'a>(
    alloc: Global,
    query: &MatchQuery<'a>,
    to: &'a str,
    given: &(GivenFiles, Vec<u8>),
) -> Result<Answer<'a>, Stop<'a>>
    requires { length given.now.0.rules.items ≤ MAX_FILES }
    ensures reply { ReturnsStep result reply_of
        (migrated_step (plain_match query.now) to.now (replay_contents given.now)) }
    ensures keeps { IfOk result (λ answer. KeepsReplay (plain_match query.now)
        (replay_contents given.now) (reply_of answer).write) }
{
    let (files, bytes) = given;
    let (maker, number) = read_numbered_maker(
        alloc,
        query.rules.as_slice(),
        query.map_file,
        files,
    )?;
    migrate_answer(alloc, query.file, to, number, &maker, bytes)
}

/// The command `replay`: reads rule files, a map for them, if one is named, and a replay, runs it,
/// and prints its world and the first mark that differs.
pub(crate) fn run_replay<D: Disk, K: Sink>(
    alloc: Global,
    query: &MatchQuery<'_>,
    disk: &mut D,
    out: &mut K,
) -> u8
    requires { length query.now.rules ≤ MAX_FILES }
    ensures { let old = environment (D.state disk.old) (K.state out.old) in
        let new = environment (D.state disk.new) (K.state out.new) in
        RunsRequest (Replay (plain_match query.now)) result (causes_of None old new) old new }
{
    let names = query.rules.as_slice();
    match read_played_files(
        alloc,
        disk,
        names,
        query.map_file,
        InputFile::Replay(query.file),
    ) {
        Ok(given) => print_answer(alloc, disk, answer_replay(alloc, query, &given), out),
        Err(stop) => print_stop(alloc, stop, out),
    }
}

/// The command `migrate`: reads and runs a replay as `replay` does, and writes it anew to the file
/// `to`, if no mark differs.
pub(crate) fn run_migrate<D: Disk, K: Sink>(
    alloc: Global,
    query: &MatchQuery<'_>,
    to: &str,
    disk: &mut D,
    out: &mut K,
) -> u8
    requires { length query.now.rules ≤ MAX_FILES }
    ensures runs { let old = environment (D.state disk.old) (K.state out.old) in
        let new = environment (D.state disk.new) (K.state out.new) in
        RunsRequest (Migrate (plain_match query.now) to.now) result
        (causes_of (Some to.now) old new) old new }
    ensures keeps { KeepsIfDone (Some (Migrate (plain_match query.now) to.now)) result
        (D.state disk.old).files }
{
    let names = query.rules.as_slice();
    match read_played_files(
        alloc,
        disk,
        names,
        query.map_file,
        InputFile::Replay(query.file),
    ) {
        Ok(given) => print_answer(alloc, disk, answer_migrate(alloc, query, to, &given), out),
        Err(stop) => print_stop(alloc, stop, out),
    }
}
