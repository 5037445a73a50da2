//! The command `compare`.
ghost use Rattle.std.specs.Prelude.{◌≤◌, length, None};
ghost use Rattle.command_words.specs.RequestPlain.{Compare, plain_match};
ghost use Rattle.command_answers.specs.Answer.{reply_of};
ghost use Rattle.command_answers.specs.Causes.{causes_of};
ghost use Rattle.command_answers.specs.Given.{compared_contents};
ghost use Rattle.command_answers.specs.Environment.{environment};
ghost use Rattle.command_answers.specs.Stop.{ReturnsStep};
ghost use Rattle.match_commands.specs.Compared.{compared_over, compared_step, first_step};
ghost use Rattle.match_commands.specs.Run.{RunsRequest};

use command_answers::{
    Answer, ComparedFiles, Stop, is_too_long, print_answer, print_stop, read_compared_files,
};
use command_words::{MAX_FILES, MatchQuery};
use compare_command::compare_answer;
use game_io::{Disk, Sink};
use rule_commands::read_numbered_maker;
use std::alloc::Global;

/// Refuses the first of two files that are compared, if it has too many bytes.
fn check_first<'a>(name: &'a str, first: &[u8]) -> Result<(), Stop<'a>>
    ensures { ReturnsStep result (λ _. first.now) (first_step name.now first.now) }
{
    if is_too_long(first) {
        Err(Stop::Refused {
            name,
            place: 0,
            cause: "TooLong",
        })
    } else {
        Ok(())
    }
}

/// The answer to `compare` with the file of this name, where the first has no more bytes than it
/// may have.
fn answer_over<'a>(
    alloc: Global,
    query: &MatchQuery<'a>,
    second: &'a str,
    given: &ComparedFiles,
) -> Result<Answer<'a>, Stop<'a>>
    requires { length given.now.files.rules.items ≤ MAX_FILES }
    ensures { ReturnsStep result reply_of
        (compared_over (plain_match query.now) second.now (compared_contents given.now)
        given.now.first.items) }
{
    let names = query.rules.as_slice();
    let (maker, number) = read_numbered_maker(alloc, names, query.map_file, &given.files)?;
    compare_answer(
        alloc,
        query.file,
        second,
        number,
        &maker,
        &given.first,
        given.second_bytes(),
    )
}

/// The answer to `compare` with the file of this name.
fn answer_compare<'a>(
    alloc: Global,
    query: &MatchQuery<'a>,
    second: &'a str,
    given: &ComparedFiles,
) -> Result<Answer<'a>, Stop<'a>>
    requires { length given.now.files.rules.items ≤ MAX_FILES }
    ensures { ReturnsStep result reply_of
        (compared_step (plain_match query.now) second.now (compared_contents given.now)) }
{
    check_first(query.file, &given.first)?;
    answer_over(alloc, query, second, given)
}

/// The command `compare`: reads rule files, a map for them, if one is named, and two saves or two
/// replays, the file of the query and `second`, and prints how they differ.
pub(crate) fn run_compare<D: Disk, K: Sink>(
    alloc: Global,
    query: &MatchQuery<'_>,
    second: &str,
    disk: &mut D,
    out: &mut K,
) -> u8
    requires { length query.now.rules ≤ MAX_FILES }
    ensures { let old = environment (D.state disk.old) (K.state out.old) in
        let new = environment (D.state disk.new) (K.state out.new) in
        RunsRequest (Compare (plain_match query.now) second.now) result
        (causes_of None old new) old new }
{
    let names = query.rules.as_slice();
    match read_compared_files(alloc, disk, names, query.map_file, query.file, second) {
        Ok(given) => {
            let answer = answer_compare(alloc, query, second, &given);
            print_answer(alloc, disk, answer, out)
        }
        Err(stop) => print_stop(alloc, stop, out),
    }
}
