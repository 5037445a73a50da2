//! The command `play`, by a script or a bot.
ghost use Rattle.std.specs.Prelude.{◌≡◌, ◌≤◌, [], length};
ghost use Rattle.command_words.specs.RequestPlain.{plain_bot, plain_match};
ghost use Rattle.command_answers.specs.Given.{script_contents};
ghost use Rattle.command_answers.specs.Stop.{ReturnsStep};
ghost use Rattle.game_io.specs.SourceState.{SourceState};
ghost use Rattle.link_commands.specs.Links.{with_links};
ghost use Rattle.match_commands.specs.Plays.{PlaysFrom, RunsBot, RunsPlay};
ghost use Rattle.match_commands.specs.Plays.{bot_means, play_means, play_step};

use command_answers::{GivenFiles, InputFile, Stop, print_stop, read_files, read_played_files};
use command_words::{BotQuery, MAX_FILES, MatchQuery};
use drill_words::MAX_DRILL_BYTES;
use game_bots::GameBots;
use game_io::{Disk, Net, Sink};
use game_orders::Orders;
use link_commands::{play_bot_over, play_over, read_solo};
use rule_commands::read_numbered_maker;
use std::alloc::Global;
use tick_core::GameMaker;

/// The command `play`: reads rule files, a map, if one is named, and a script of one client, and
/// plays it at the server of this address.
pub(crate) fn run_play<D: Disk, K: Sink, N: Net>(
    alloc: Global,
    query: &MatchQuery<'_>,
    at: &str,
    disk: &mut D,
    out: &mut K,
    net: &mut N,
) -> u8
    requires few { length query.now.rules ≤ MAX_FILES }
    requires links { (N.state net.old).given ≡ [] }
    ensures { (console : SourceState) → RunsPlay (plain_match query.now) result
        (with_links (D.state disk.old) (K.state out.old) (N.state net.old) console)
        (with_links (D.state disk.new) (K.state out.new) (N.state net.new) console) }
{
    let names = query.rules.as_slice();
    match read_played_files(
        alloc,
        disk,
        names,
        query.map_file,
        InputFile::Script(query.file),
    ) {
        Ok(given) => play_made(alloc, at, prepare_play(alloc, query, &given), out, net),
        Err(stop) => print_stop(alloc, stop, out),
    }
}

/// What a player plays by: a maker of its worlds, the number of its rules and map, and its script.
fn prepare_play<'a>(
    alloc: Global,
    query: &MatchQuery<'a>,
    given: &(GivenFiles, Vec<u8>),
) -> Result<(GameMaker, u64, Vec<Orders>), Stop<'a>>
    requires rules { length given.now.0.rules.items ≤ MAX_FILES }
    requires script { length given.now.1.items ≤ MAX_DRILL_BYTES }
    ensures { ReturnsStep result play_means
        (play_step (plain_match query.now) (script_contents given.now)) }
{
    let (files, bytes) = given;
    let (maker, number) = read_numbered_maker(
        alloc,
        query.rules.as_slice(),
        query.map_file,
        files,
    )?;
    let script = read_solo(alloc, query.file, bytes)?;
    Ok((maker, number, script))
}

/// Plays the match, and prints its answer; or prints why the command ended before it.
fn play_made<K: Sink, N: Net>(
    alloc: Global,
    at: &str,
    made: Result<(GameMaker, u64, Vec<Orders>), Stop<'_>>,
    out: &mut K,
    net: &mut N,
) -> u8
    requires { (N.state net.old).given ≡ [] }
    ensures plays { PlaysFrom play_means made.entry result (N.state net.old) (N.state net.new)
        (K.state out.old) (K.state out.new) }
    ensures later { (K.state out.old).faults ≤ (K.state out.new).faults }
{
    match made {
        Ok((maker, number, script)) => play_over(alloc, at, number, &script, &maker, out, net),
        Err(stop) => print_stop(alloc, stop, out),
    }
}

/// The command `play` by a bot: reads rule files and a map, if one is named, and lets a bot play
/// over them at the server of its address.
pub(crate) fn run_bot<D: Disk, K: Sink, N: Net>(
    alloc: Global,
    query: &BotQuery<'_>,
    disk: &mut D,
    out: &mut K,
    net: &mut N,
) -> u8
    requires few { length query.now.rules ≤ MAX_FILES }
    requires links { (N.state net.old).given ≡ [] }
    ensures { (console : SourceState) → RunsBot (plain_bot query.now) result
        (with_links (D.state disk.old) (K.state out.old) (N.state net.old) console)
        (with_links (D.state disk.new) (K.state out.new) (N.state net.new) console) }
{
    let names = query.rules.as_slice();
    match read_files(alloc, disk, names, query.map_file) {
        Ok(given) => {
            let made = read_numbered_maker(alloc, names, query.map_file, &given);
            play_bot(alloc, query, made, out, net)
        }
        Err(stop) => print_stop(alloc, stop, out),
    }
}

/// Lets the bot play the match, and prints its answer; or prints why the command ended before it.
fn play_bot<K: Sink, N: Net>(
    alloc: Global,
    query: &BotQuery<'_>,
    made: Result<(GameMaker, u64), Stop<'_>>,
    out: &mut K,
    net: &mut N,
) -> u8
    requires { (N.state net.old).given ≡ [] }
    ensures plays { PlaysFrom (bot_means query.now.frames) made.entry result (N.state net.old)
        (N.state net.new) (K.state out.old) (K.state out.new) }
    ensures later { (K.state out.old).faults ≤ (K.state out.new).faults }
{
    match made {
        Ok((maker, number)) => play_bot_over(
            alloc,
            query.at,
            number,
            &GameBots,
            query.frames,
            &maker,
            out,
            net,
        ),
        Err(stop) => print_stop(alloc, stop, out),
    }
}
