//! The commands that may wait for threads or links.
ghost use Rattle.std.specs.Prelude.{◌≡◌, ◌≤◌, [], None, Some, length, map, option_map, slice_get};
ghost use Rattle.std.specs.Prelude.{string_bytes, is_some};
ghost use Rattle.command_words.specs.RequestPlain.{Local, IsWithinBounds, plain_match};
ghost use Rattle.command_words.specs.RequestPlain.{RequestPlain, plain_of};
ghost use Rattle.command_words.specs.Reading.{request_of};
ghost use Rattle.command_answers.specs.Causes.{causes_of};
ghost use Rattle.command_answers.specs.Given.{script_contents};
ghost use Rattle.command_answers.specs.Environment.{environment};
ghost use Rattle.command_answers.specs.Stop.{ReturnsStep};
ghost use Rattle.match_commands.specs.Locals.{local_match_step};
ghost use Rattle.link_commands.specs.Links.{with_links};
ghost use Rattle.match_commands.specs.Run.{RunsRequest};
ghost use Rattle.match_commands.specs.TopCalls.{names_waiting, waiting, waiting_request};
ghost use Rattle.match_commands.specs.Waiting.{RunsWaiting};

use crate::hosting::run_serve;
use crate::linking::{run_bot, run_play};
use command_answers::{
    GivenFiles, InputFile, OUT_OF_MEMORY, Stop, print_stop, print_text, read_played_files,
    refuse_words,
};
use command_words::{MAX_BOTS, MAX_FILES, MatchQuery, Request, WordsFault, read_arguments};
use drill_words::MAX_DRILL_BYTES;
use game_io::{Disk, Gate, Net, Sink, Source};
use local_command::local_text;
use rule_commands::read_maker;
use std::alloc::Global;
use std::sync::Wait;
use std::thread::Threads;

/// Whether the word after the program's name is a command of [`run_waiting`], and no one of
/// [`run`](crate::run). Where the words name a request, that is whether [`run_waiting`] runs it.
pub fn may_wait(words: &[String]) -> bool
    ensures second { result ≡ names_waiting (option_map string_bytes (slice_get words.now 1)) }
    ensures request { (request : RequestPlain) →
        request_of (map string_bytes words.now) ≡ Some request →
        result ≡ is_some (waiting request) }
{
    is_second_waiting(words)
}

/// Whether the word after the program's name is the name of such a command.
fn is_second_waiting(words: &[String]) -> bool
    ensures { result ≡ names_waiting (option_map string_bytes (slice_get words.now 1)) }
{
    match words.get(1) {
        Some(command) => is_waiting(command.as_str()),
        None => false,
    }
}

/// Whether the command of this name may wait.
fn is_waiting(command: &str) -> bool
    ensures { result ≡ names_waiting (Some command.now) }
{
    command == "local" || (command == "serve" || command == "play")
}

/// Runs the command that the arguments name, where it is one that may wait for threads or links;
/// the first of them is the program's name. All other commands are those of [`run`](crate::run),
/// and are refused here like unknown ones. It changes no file but the one that `serve --record`
/// names. A local match uses neither the net, which has given no link yet, nor the console. A
/// player uses the net's first link; a server uses as many as it has clients, and the console. They
/// hand the links back. Where it returns, it returns:
///
/// - 0, the command is done, and exactly its text was written;
/// - 2, the arguments are refused;
/// - 3, a file that they name is missing, too long, or has a fault; or a script's clients and the
///   bots beside them are more than `MAX_CLIENTS`; or the server or the bytes of the link refused a
///   player, whose text was written;
/// - 4, a read, the net or a player's link failed: a count of faults rose;
/// - 5, a write failed: a count of faults rose, and a prefix of the text was written;
/// - 6, out of memory, and a prefix of the text was written.
///
/// The file that `serve --record` names is written after the whole text of a match that was served
/// to its end, also where the status is 6 because memory ran out for a link. What else is in it
/// after a failed write is as [`run`](crate::run) says of its files.
///
/// It returns only if its threads do, and what its links are to give comes. The gate is asked
/// before and after each play that a local match puts; its watch is told what happens in a served
/// match.
pub fn run_waiting<
    D: Disk,
    K: Sink,
    N: Net,
    C: Source + Send,
    G: Gate + Sync,
    R: Threads + Wait + Sync,
>(
    rt: &R,
    alloc: Global,
    words: &[String],
    disk: &mut D,
    out: &mut K,
    net: &mut N,
    console: &mut C,
    gate: &G,
) -> u8
    requires { (N.state net.old).given ≡ [] }
    ensures { RunsWaiting (waiting_request (request_of (map string_bytes words.now))) result
        (with_links (D.state disk.old) (K.state out.old) (N.state net.old) (C.state console.old))
        (with_links (D.state disk.new) (K.state out.new) (N.state net.new) (C.state console.new)) }
{
    match read_arguments(alloc, words) {
        Ok(request) => run_request(rt, alloc, &request, disk, out, net, console, gate),
        Err(WordsFault::Refused) => refuse_words(out),
        Err(WordsFault::NoMemory) => OUT_OF_MEMORY,
    }
}

/// Runs the command of a request, where it is one that may wait, and refuses every other one like
/// an unknown one.
fn run_request<
    D: Disk,
    K: Sink,
    N: Net,
    C: Source + Send,
    G: Gate + Sync,
    R: Threads + Wait + Sync,
>(
    rt: &R,
    alloc: Global,
    request: &Request<'_>,
    disk: &mut D,
    out: &mut K,
    net: &mut N,
    console: &mut C,
    gate: &G,
) -> u8
    requires bounds { IsWithinBounds request.now }
    requires links { (N.state net.old).given ≡ [] }
    ensures { RunsWaiting (waiting (plain_of request.now)) result
        (with_links (D.state disk.old) (K.state out.old) (N.state net.old) (C.state console.old))
        (with_links (D.state disk.new) (K.state out.new) (N.state net.new) (C.state console.new)) }
{
    match request {
        Request::Local { query, bots } => {
            run_local_match(rt, alloc, query, *bots, disk, out, gate)
        }
        Request::Play { query, at, .. } => run_play(alloc, query, at, disk, out, net),
        Request::PlayBot(query) => run_bot(alloc, query, disk, out, net),
        Request::Serve(query) => run_serve(rt, alloc, query, disk, out, net, console, gate.watch()),
        Request::Drill { .. }
        | Request::Yaml { .. }
        | Request::Check { .. }
        | Request::Route(_)
        | Request::Make { .. }
        | Request::Replay(_)
        | Request::Migrate { .. }
        | Request::Save { .. }
        | Request::Continue { .. }
        | Request::View { .. }
        | Request::Worlds { .. }
        | Request::Compare { .. }
        | Request::Datagrams { .. } => refuse_words(out),
    }
}

/// The command `local`: reads rule files, a map, if one is named, and a script, and plays the
/// script and these bots on threads.
fn run_local_match<D: Disk, K: Sink, G: Gate + Sync, R: Threads + Wait + Sync>(
    rt: &R,
    alloc: Global,
    query: &MatchQuery<'_>,
    bots: u8,
    disk: &mut D,
    out: &mut K,
    gate: &G,
) -> u8
    requires rules { length query.now.rules ≤ MAX_FILES }
    requires bots { bots ≤ MAX_BOTS }
    ensures { let old = environment (D.state disk.old) (K.state out.old) in
        let new = environment (D.state disk.new) (K.state out.new) in
        RunsRequest (Local (plain_match query.now) bots) result (causes_of None old new) old new }
{
    let names = query.rules.as_slice();
    match read_played_files(
        alloc,
        disk,
        names,
        query.map_file,
        InputFile::Script(query.file),
    ) {
        Ok(given) => {
            let text = match_text(rt, alloc, query, bots, &given, gate);
            print_text(alloc, text, out)
        },
        Err(stop) => print_stop(alloc, stop, out),
    }
}

/// Plays the script and these bots on threads, over what the files hold, and makes the text of the
/// command.
fn match_text<'a, G: Gate + Sync, R: Threads + Wait + Sync>(
    rt: &R,
    alloc: Global,
    query: &MatchQuery<'a>,
    bots: u8,
    given: &(GivenFiles, Vec<u8>),
    gate: &G,
) -> Result<Vec<u8>, Stop<'a>>
    requires bots { bots ≤ MAX_BOTS }
    requires rules { length given.now.0.rules.items ≤ MAX_FILES }
    requires script { length given.now.1.items ≤ MAX_DRILL_BYTES }
    ensures { ReturnsStep result (λ text. text.items)
        (local_match_step (plain_match query.now) bots (script_contents given.now)) }
{
    let (files, script) = given;
    let maker = read_maker(alloc, query.rules.as_slice(), query.map_file, files)?;
    local_text(rt, alloc, &maker, query.file, script, bots, gate)
}
