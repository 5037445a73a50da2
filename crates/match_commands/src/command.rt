ghost use Rattle.std.specs.Prelude.{◌≡◌, ◌≤◌, None, Some, length, map, option_map, string_bytes};
ghost use Rattle.std.specs.Prelude.{option_and_then};
ghost use Rattle.command_words.specs.RequestPlain.{Drill, Yaml, Check, Route, plain_of};
ghost use Rattle.command_words.specs.RequestPlain.{plain_match, plain_route, IsWithinBounds};
ghost use Rattle.command_words.specs.Reading.{request_of};
ghost use Rattle.command_answers.specs.Causes.{causes_of};
ghost use Rattle.command_answers.specs.Environment.{environment};
ghost use Rattle.match_commands.specs.KeptMatches.{KeepsIfDone};
ghost use Rattle.match_commands.specs.Request.{written_by};
ghost use Rattle.match_commands.specs.Run.{ProgramRun, RunsRequest};
ghost use Rattle.match_commands.specs.TopCalls.{returning, returning_request};

use crate::comparing::run_compare;
use crate::datagrams::run_datagrams;
use crate::making::make_text;
use crate::preparing::{prepare_drill, prepare_recorded};
use crate::recording::record_drill;
use crate::replaying::{run_migrate, run_replay};
use crate::reporting::report_drill;
use crate::saving::{run_continue, run_save};
use crate::viewing::{run_view, run_worlds_query};
use command_answers::{
    InputFile, OUT_OF_MEMORY, print_stop, print_text, read_files, read_played_files, read_rules,
    refuse_words,
};
use command_words::{
    FileNames, MAX_FILES, MatchQuery, Request, RouteQuery, WordsFault, read_arguments,
};
use game_io::{Disk, Sink};
use rule_commands::{check_text, route_text, yaml_text};
use std::alloc::Global;

/// Runs the command that the arguments name, where it is one that always returns; the first of them
/// is the program's name. All other commands are those of [`run_waiting`](crate::run_waiting), and
/// are refused here like unknown ones. It changes no file that the arguments don't name to be
/// written, and returns:
///
/// - 0, the command is done, and exactly its text was written;
/// - 2, the arguments are refused;
/// - 3, a file that they name is missing, too long, or has a fault, or there is a `RouteFault`; or
///   the replay has fewer frames than `save` or `worlds` asks for, or than the save of `continue`,
///   or is one of another match than that save, or has no such client as `view` asks for; never of
///   `make`, which reads no files;
/// - 4, a read failed: the disk's count of faults rose;
/// - 5, a write failed: a count of faults rose, and a prefix of the text was written;
/// - 6, out of memory, and a prefix of the text was written;
/// - 7, of `replay`, `migrate` and `continue`: a mark that they compare differs from the hash of
///   the world after its frames; of `compare`: its two files differ; and exactly the text was
///   written.
///
/// The file that `drill --record`, `migrate` or `save` names is written after the text. At 5 it
/// holds what it held, nothing, or a prefix of its bytes; at every other status but 0 it is as it
/// was. At 0 it keeps its match, over the same rules and map: of a record `replay` finds no
/// differing mark and has the server's world in the end; of a migrated replay it answers what it
/// answers of the old one; from a save `continue` goes on as `replay` does.
pub fn run<D: Disk, K: Sink>(alloc: Global, words: &[String], disk: &mut D, out: &mut K) -> u8
    ensures runs { let old = environment (D.state disk.old) (K.state out.old) in
        let new = environment (D.state disk.new) (K.state out.new) in
        let request = returning_request (request_of (map string_bytes words.now)) in
        ProgramRun request result (causes_of (option_and_then written_by request) old new) old new }
    ensures keeps { KeepsIfDone (returning_request (request_of (map string_bytes words.now))) result
        (D.state disk.old).files }
{
    match read_arguments(alloc, words) {
        Ok(request) => run_request(alloc, &request, disk, out),
        Err(WordsFault::Refused) => refuse_words(out),
        Err(WordsFault::NoMemory) => OUT_OF_MEMORY,
    }
}

/// Runs the command of a request, where it always returns, and refuses every other one like
/// an unknown one.
fn run_request<D: Disk, K: Sink>(
    alloc: Global,
    request: &Request<'_>,
    disk: &mut D,
    out: &mut K,
) -> u8
    requires { IsWithinBounds request.now }
    ensures runs { let old = environment (D.state disk.old) (K.state out.old) in
        let new = environment (D.state disk.new) (K.state out.new) in
        let named = returning (plain_of request.now) in
        ProgramRun named result (causes_of (option_and_then written_by named) old new) old new }
    ensures keeps { KeepsIfDone (returning (plain_of request.now)) result (D.state disk.old).files }
{
    match request {
        Request::Drill { query, record } => run_drill_query(alloc, query, *record, disk, out),
        Request::Yaml { files } => run_yaml(alloc, files, disk, out),
        Request::Check { map_file, rules } => run_check(alloc, *map_file, rules, disk, out),
        Request::Route(query) => run_route(alloc, query, disk, out),
        Request::Make { number } => print_text(alloc, make_text(alloc, *number), out),
        Request::Replay(query) => run_replay(alloc, query, disk, out),
        Request::Migrate { query, to } => run_migrate(alloc, query, to, disk, out),
        Request::Save { query, frames, to } => run_save(alloc, query, *frames, to, disk, out),
        Request::Continue { query, save } => run_continue(alloc, query, save, disk, out),
        Request::View { query, client } => run_view(alloc, query, *client, disk, out),
        Request::Worlds { query, range } => run_worlds_query(alloc, query, *range, disk, out),
        Request::Compare { query, second } => run_compare(alloc, query, second, disk, out),
        Request::Datagrams { script } => run_datagrams(alloc, script, disk, out),
        Request::Local { .. } | Request::Serve(_) | Request::Play { .. } | Request::PlayBot(_) =>
            refuse_words(out),
    }
}

/// The command `drill`, which records the drill, if a file is named for that.
fn run_drill_query<D: Disk, K: Sink>(
    alloc: Global,
    query: &MatchQuery<'_>,
    record_file: Option<&str>,
    disk: &mut D,
    out: &mut K,
) -> u8
    requires { length query.now.rules ≤ MAX_FILES }
    ensures runs { let name = option_map (λ name. name.now) record_file.entry in
        let old = environment (D.state disk.old) (K.state out.old) in
        let new = environment (D.state disk.new) (K.state out.new) in
        RunsRequest (Drill (plain_match query.now) name) result (causes_of name old new) old new }
    ensures keeps { let name = option_map (λ name. name.now) record_file.entry in
        KeepsIfDone (Some (Drill (plain_match query.now) name)) result (D.state disk.old).files }
{
    match record_file {
        Some(name) => run_recorded_script(alloc, query, name, disk, out),
        None => run_script(alloc, query, disk, out),
    }
}

/// The command `drill` without `--record`: reads rule files, a map for them and the script, and
/// runs it.
fn run_script<D: Disk, K: Sink>(
    alloc: Global,
    query: &MatchQuery<'_>,
    disk: &mut D,
    out: &mut K,
) -> u8
    requires { length query.now.rules ≤ MAX_FILES }
    ensures { let old = environment (D.state disk.old) (K.state out.old) in
        let new = environment (D.state disk.new) (K.state out.new) in
        RunsRequest (Drill (plain_match query.now) None) result (causes_of None old new) old new }
{
    let names = query.rules.as_slice();
    match read_played_files(
        alloc,
        disk,
        names,
        query.map_file,
        InputFile::Script(query.file),
    ) {
        Ok(given) => report_drill(alloc, prepare_drill(alloc, query, &given), out),
        Err(stop) => print_stop(alloc, stop, out),
    }
}

/// The command `drill` with `--record`: the same, and the replay of the frames that the server
/// ticked is written to the file `name`, after the report.
fn run_recorded_script<D: Disk, K: Sink>(
    alloc: Global,
    query: &MatchQuery<'_>,
    name: &str,
    disk: &mut D,
    out: &mut K,
) -> u8
    requires { length query.now.rules ≤ MAX_FILES }
    ensures runs { let old = environment (D.state disk.old) (K.state out.old) in
        let new = environment (D.state disk.new) (K.state out.new) in
        RunsRequest (Drill (plain_match query.now) (Some name.now)) result
        (causes_of (Some name.now) old new) old new }
    ensures keeps { KeepsIfDone (Some (Drill (plain_match query.now) (Some name.now))) result
        (D.state disk.old).files }
{
    let names = query.rules.as_slice();
    match read_played_files(
        alloc,
        disk,
        names,
        query.map_file,
        InputFile::Script(query.file),
    ) {
        Ok(given) => {
            let made = prepare_recorded(alloc, query, &given);
            record_drill(alloc, disk, name, made, out)
        }
        Err(stop) => print_stop(alloc, stop, out),
    }
}

/// The command `yaml`: reads rule files and prints their resolved forest.
fn run_yaml<D: Disk, K: Sink>(alloc: Global, names: &FileNames<'_>, disk: &mut D, out: &mut K) -> u8
    requires { length names.now ≤ MAX_FILES }
    ensures { let old = environment (D.state disk.old) (K.state out.old) in
        let new = environment (D.state disk.new) (K.state out.new) in
        RunsRequest (Yaml names.now) result (causes_of None old new) old new }
{
    let names = names.as_slice();
    match read_rules(alloc, disk, names) {
        Ok(contents) => print_text(alloc, yaml_text(alloc, names, &contents), out),
        Err(stop) => print_stop(alloc, stop, out),
    }
}

/// The command `check`: reads rule files and a map for them, if one is named, and prints what they
/// have.
fn run_check<D: Disk, K: Sink>(
    alloc: Global,
    map_file: Option<&str>,
    names: &FileNames<'_>,
    disk: &mut D,
    out: &mut K,
) -> u8
    requires { length names.now ≤ MAX_FILES }
    ensures { let old = environment (D.state disk.old) (K.state out.old) in
        let new = environment (D.state disk.new) (K.state out.new) in
        RunsRequest (Check (option_map (λ name. name.now) map_file.entry) names.now) result
        (causes_of None old new) old new }
{
    let names = names.as_slice();
    match read_files(alloc, disk, names, map_file) {
        Ok(given) => print_text(alloc, check_text(alloc, names, map_file, &given), out),
        Err(stop) => print_stop(alloc, stop, out),
    }
}

/// The command `route`: reads rule files and a map for them, and prints a route over it.
fn run_route<D: Disk, K: Sink>(
    alloc: Global,
    query: &RouteQuery<'_>,
    disk: &mut D,
    out: &mut K,
) -> u8
    requires { length query.now.rules ≤ MAX_FILES }
    ensures { let old = environment (D.state disk.old) (K.state out.old) in
        let new = environment (D.state disk.new) (K.state out.new) in
        RunsRequest (Route (plain_route query.now)) result (causes_of None old new) old new }
{
    match read_files(alloc, disk, query.rules.as_slice(), Some(query.map_file)) {
        Ok(given) => print_text(alloc, route_text(alloc, query, &given), out),
        Err(stop) => print_stop(alloc, stop, out),
    }
}
