//! The command `serve`.
ghost use Rattle.std.specs.Prelude.{◌≡◌, ◌≤◌, [], length};
ghost use Rattle.command_words.specs.RequestPlain.{IsCount, plain_serve};
ghost use Rattle.game_io.specs.DiskState.{DiskState};
ghost use Rattle.link_commands.specs.Links.{with_links};
ghost use Rattle.game_orders.specs.declared.limits.TheConstants.{MAX_CLIENTS};
ghost use Rattle.match_commands.specs.Serves.{RecordsFrom, RunsServe, ServesAs, ServesFrom};
ghost use Rattle.match_commands.specs.Serves.{invite_of};

use command_answers::{Stop, print_stop, read_files};
use command_words::{MAX_FILES, ServeQuery};
use game_io::{Disk, Net, Sink, Source, Watch};
use match_net::Invite;
use replay_run::a_record_gives_the_match;
use rule_commands::read_numbered_maker;
use serve_command::{serve_over, serve_recorded};
use std::alloc::Global;
use std::sync::Wait;
use std::thread::Threads;
use tick_core::{Game, GameMaker};

/// The command `serve`: reads rule files and a map, if one is named, and serves a match over them.
/// If a file is named for that, the replay of the match is written to it, after the text.
pub(crate) fn run_serve<
    D: Disk,
    K: Sink,
    N: Net,
    C: Source + Send,
    W: Watch + Sync,
    R: Threads + Wait + Sync,
>(
    rt: &R,
    alloc: Global,
    query: &ServeQuery<'_>,
    disk: &mut D,
    out: &mut K,
    net: &mut N,
    console: &mut C,
    watch: &W,
) -> u8
    requires few { length query.now.rules ≤ MAX_FILES }
    requires clients { IsCount query.now.clients }
    requires links { (N.state net.old).given ≡ [] }
    ensures { RunsServe (plain_serve query.now) result
        (with_links (D.state disk.old) (K.state out.old) (N.state net.old) (C.state console.old))
        (with_links (D.state disk.new) (K.state out.new) (N.state net.new) (C.state console.new)) }
{
    a_record_gives_the_match::<Game>();
    let names = query.rules.as_slice();
    match read_files(alloc, disk, names, query.map_file) {
        Ok(given) => {
            let made = read_numbered_maker(alloc, names, query.map_file, &given);
            serve_or_record(rt, alloc, query, made, disk, out, net, console, watch)
        }
        Err(stop) => print_stop(alloc, stop, out),
    }
}

/// Serves the match, and records it, if a file is named for that; or prints why the command ended
/// before it.
fn serve_or_record<
    D: Disk,
    K: Sink,
    N: Net,
    C: Source + Send,
    W: Watch + Sync,
    R: Threads + Wait + Sync,
>(
    rt: &R,
    alloc: Global,
    query: &ServeQuery<'_>,
    made: Result<(GameMaker, u64), Stop<'_>>,
    disk: &mut D,
    out: &mut K,
    net: &mut N,
    console: &mut C,
    watch: &W,
) -> u8
    requires clients { IsCount query.now.clients }
    requires links { (N.state net.old).given ≡ [] }
    ensures serves { let plain = plain_serve query.now in
        ServesAs plain.record_file plain made.entry result
        (with_links (D.state disk.old) (K.state out.old) (N.state net.old) (C.state console.old))
        (with_links (D.state disk.new) (K.state out.new) (N.state net.new) (C.state console.new)) }
    ensures disk { (D.state disk.old).faults ≤ (D.state disk.new).faults }
    ensures later { (K.state out.old).faults ≤ (K.state out.new).faults }
{
    match query.record_file {
        Some(name) => record_made(rt, alloc, query, name, made, disk, out, net, console, watch),
        None => serve_made(rt, alloc, query, made, out, net, console, watch),
    }
}

/// What each link of the match is told, but for its client.
fn invite_to(query: &ServeQuery<'_>, rules: u64) -> Invite
    requires { IsCount query.now.clients }
    ensures value { result ≡ invite_of (plain_serve query.now) rules }
    ensures least { 1 ≤ result.clients }
    ensures most { result.clients ≤ MAX_CLIENTS }
{
    Invite {
        client: 0,
        clients: query.clients,
        lag: query.lag,
        seed: query.seed,
        rules,
    }
}

/// Serves the match, prints its answer and records it in the file of this name; or prints why the
/// command ended before it.
fn record_made<
    D: Disk,
    K: Sink,
    N: Net,
    C: Source + Send,
    W: Watch + Sync,
    R: Threads + Wait + Sync,
>(
    rt: &R,
    alloc: Global,
    query: &ServeQuery<'_>,
    name: &str,
    made: Result<(GameMaker, u64), Stop<'_>>,
    disk: &mut D,
    out: &mut K,
    net: &mut N,
    console: &mut C,
    watch: &W,
) -> u8
    requires clients { IsCount query.now.clients }
    requires links { (N.state net.old).given ≡ [] }
    ensures records { RecordsFrom (plain_serve query.now) name.now made.entry result
        (with_links (D.state disk.old) (K.state out.old) (N.state net.old) (C.state console.old))
        (with_links (D.state disk.new) (K.state out.new) (N.state net.new) (C.state console.new)) }
    ensures disk { (D.state disk.old).faults ≤ (D.state disk.new).faults }
    ensures later { (K.state out.old).faults ≤ (K.state out.new).faults }
{
    match made {
        Ok((maker, rules)) => {
            let invite = invite_to(query, rules);
            let at = query.at;
            serve_recorded(
                rt, alloc, at, &invite, &maker, name, disk, out, net, console, watch,
            )
        }
        Err(stop) => print_stop(alloc, stop, out),
    }
}

/// Serves the match, and prints its answer; or prints why the command ended before it.
fn serve_made<K: Sink, N: Net, C: Source + Send, W: Watch + Sync, R: Threads + Wait + Sync>(
    rt: &R,
    alloc: Global,
    query: &ServeQuery<'_>,
    made: Result<(GameMaker, u64), Stop<'_>>,
    out: &mut K,
    net: &mut N,
    console: &mut C,
    watch: &W,
) -> u8
    requires clients { IsCount query.now.clients }
    requires links { (N.state net.old).given ≡ [] }
    ensures serves { (old new : DiskState) → ServesFrom (plain_serve query.now) made.entry result
        (with_links old (K.state out.old) (N.state net.old) (C.state console.old))
        (with_links new (K.state out.new) (N.state net.new) (C.state console.new)) }
    ensures later { (K.state out.old).faults ≤ (K.state out.new).faults }
{
    match made {
        Ok((maker, rules)) => {
            let invite = invite_to(query, rules);
            serve_over(
                rt, alloc, query.at, &invite, &maker, out, net, console, watch,
            )
        }
        Err(stop) => print_stop(alloc, stop, out),
    }
}
