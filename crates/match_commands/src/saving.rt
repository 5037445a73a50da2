//! The commands on saves.
ghost use Rattle.std.specs.Prelude.{◌≤◌, length, None, Some, IfOk};
ghost use Rattle.command_words.specs.RequestPlain.{Continue, Save, plain_match};
ghost use Rattle.command_answers.specs.Answer.{reply_of};
ghost use Rattle.command_answers.specs.Causes.{causes_of};
ghost use Rattle.command_answers.specs.Given.{paired_contents, replay_contents};
ghost use Rattle.command_answers.specs.Environment.{environment};
ghost use Rattle.command_answers.specs.Stop.{ReturnsStep};
ghost use Rattle.match_commands.specs.KeptMatches.{KeepsIfDone, KeepsWorld};
ghost use Rattle.match_commands.specs.Run.{RunsRequest};
ghost use Rattle.match_commands.specs.Saves.{continued_step, saved_step};

use command_answers::{
    Answer, GivenFiles, InputFile, PairedFiles, Stop, print_answer, print_stop, read_paired_files,
    read_played_files,
};
use command_words::{MAX_FILES, MatchQuery};
use game_io::{Disk, Sink};
use rule_commands::read_numbered_maker;
use save_commands::{continue_answer, save_answer};
use std::alloc::Global;

/// The answer to `save`, which writes the file `to`.
fn answer_save<'a>(
    alloc: Global,
    query: &MatchQuery<'a>,
    frames: u32,
    to: &'a str,
    given: &(GivenFiles, Vec<u8>),
) -> Result<Answer<'a>, Stop<'a>>
    requires { length given.now.0.rules.items ≤ MAX_FILES }
    ensures reply { ReturnsStep result reply_of
        (saved_step (plain_match query.now) frames to.now (replay_contents given.now)) }
    ensures keeps { IfOk result (λ answer. KeepsWorld (plain_match query.now) frames
        (replay_contents given.now) (reply_of answer).write) }
{
    let (files, bytes) = given;
    let (maker, number) = read_numbered_maker(
        alloc,
        query.rules.as_slice(),
        query.map_file,
        files,
    )?;
    save_answer(alloc, query.file, frames, to, number, &maker, bytes)
}

/// The answer to `continue` from the save of this name.
fn answer_continue<'a>(
    alloc: Global,
    query: &MatchQuery<'a>,
    save: &'a str,
    given: &PairedFiles,
) -> Result<Answer<'a>, Stop<'a>>
    requires { length given.now.files.rules.items ≤ MAX_FILES }
    ensures { ReturnsStep result reply_of
        (continued_step (plain_match query.now) save.now (paired_contents given.now)) }
{
    let names = query.rules.as_slice();
    let (maker, number) = read_numbered_maker(alloc, names, query.map_file, &given.files)?;
    continue_answer(
        alloc,
        save,
        query.file,
        number,
        &maker,
        &given.save,
        &given.replay,
    )
}

/// The command `save`: reads rule files, a map for them, if one is named, and a replay, runs so
/// many of its frames, and writes a save of the world after them to the file `to`.
pub(crate) fn run_save<D: Disk, K: Sink>(
    alloc: Global,
    query: &MatchQuery<'_>,
    frames: u32,
    to: &str,
    disk: &mut D,
    out: &mut K,
) -> u8
    requires { length query.now.rules ≤ MAX_FILES }
    ensures runs { let old = environment (D.state disk.old) (K.state out.old) in
        let new = environment (D.state disk.new) (K.state out.new) in
        RunsRequest (Save (plain_match query.now) frames to.now) result
        (causes_of (Some to.now) old new) old new }
    ensures keeps { KeepsIfDone (Some (Save (plain_match query.now) frames to.now)) result
        (D.state disk.old).files }
{
    let names = query.rules.as_slice();
    match read_played_files(
        alloc,
        disk,
        names,
        query.map_file,
        InputFile::Replay(query.file),
    ) {
        Ok(given) => {
            let answer = answer_save(alloc, query, frames, to, &given);
            print_answer(alloc, disk, answer, out)
        }
        Err(stop) => print_stop(alloc, stop, out),
    }
}

/// The command `continue`: reads rule files, a map for them, if one is named, a save and then a
/// replay, and runs the replay's later frames over the saved world. It prints what `replay` prints,
/// of the marks that come at the save or later.
pub(crate) fn run_continue<D: Disk, K: Sink>(
    alloc: Global,
    query: &MatchQuery<'_>,
    save: &str,
    disk: &mut D,
    out: &mut K,
) -> u8
    requires { length query.now.rules ≤ MAX_FILES }
    ensures { let old = environment (D.state disk.old) (K.state out.old) in
        let new = environment (D.state disk.new) (K.state out.new) in
        RunsRequest (Continue (plain_match query.now) save.now) result
        (causes_of None old new) old new }
{
    let names = query.rules.as_slice();
    match read_paired_files(alloc, disk, names, query.map_file, save, query.file) {
        Ok(given) => {
            let answer = answer_continue(alloc, query, save, &given);
            print_answer(alloc, disk, answer, out)
        }
        Err(stop) => print_stop(alloc, stop, out),
    }
}
