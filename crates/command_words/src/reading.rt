ghost use Rattle.std.specs.Prelude.{◌≡◌, ◌≢◌, ◌≤◌, length, IfOk, IfSome, OnOk, Some, None, Err, map};
ghost use Rattle.std.specs.Prelude.{string_bytes, true, false};
ghost use Rattle.std.specs.Prelude.{codes, option_map};
ghost use Rattle.clap.specs.Walk.{rows_of, first_of, all_of};
ghost use Rattle.clap.specs.Matches.{found_of};
ghost use Rattle.clap.specs.Simple.{subcommand_of, subcommand_rows_of};
ghost use Rattle.command_words.specs.Commands.{lockstep_app};
ghost use Rattle.command_words.specs.RequestPlain.{plain_of, plain_match, plain_route, plain_serve};
ghost use Rattle.command_words.specs.RequestPlain.{plain_name, plain_range, HasFewFiles, IsCount};
ghost use Rattle.command_words.specs.RequestPlain.{FitsHost};
ghost use Rattle.command_words.specs.RequestPlain.{IsRead, IsWithinBounds};
ghost use Rattle.command_words.specs.Reading.{is_accepted, is_allowed, command_request};
ghost use Rattle.command_words.specs.Reading.{found_request, request_of, names_in, number_in};
ghost use Rattle.command_words.specs.Reading.{cell_in, match_in, route_in, migrate_in};
ghost use Rattle.command_words.specs.Reading.{count_in, count_or, up_to, serve_in, play_in};
ghost use Rattle.command_words.specs.Reading.{step_or, from_one, range_in, worlds_in};
ghost use Rattle.command_words.specs.Reading.{save_in, continue_in, view_in, compare_in};
ghost use Rattle.command_words.specs.Reading.{at_most, bots_in, local_in, has_flag, played_by};
ghost use Rattle.command_words.specs.Reading.{player_in};
ghost use Rattle.command_words.specs.Player.{plain_player};

use crate::command::lockstep_command;
use crate::host_reading::host_in;
use crate::player::Player;
use crate::{
    BotQuery, DEFAULT_EVERY, DEFAULT_FROM, DEFAULT_LAG, DEFAULT_SEED, FileNames, MAX_BOTS,
    MAX_FILES, MatchQuery, Request, RouteQuery, ServeQuery, WordsFault, WorldRange,
};
use clap::ArgMatches;
use clap::error::ErrorKind;
use game_orders::{MAX_CLIENTS, MAX_FRAMES, MAX_LAG};
use rule_values::read_cell;
use std::alloc::Global;
use world_units::CPos;

/// The request that the arguments name; the first of them is the program's name.
///
/// The arguments are `Refused` exactly where they name none; `NoMemory` is the other refusal. The
/// request borrows its names from them.
#[tactic(auto, unfolding(crate::specs::Reading::request_of))]
pub fn read_arguments<'a>(alloc: Global, words: &'a [String]) -> Result<Request<'a>, WordsFault>
    ensures request { IfOk result
        (λ request. request_of (map string_bytes words.now) ≡ Some (plain_of request)) }
    ensures bounds { IfOk result IsWithinBounds }
    ensures refused { result ≡ Err WordsFault.Refused →
        request_of (map string_bytes words.now) ≡ None }
{
    let matches = matches_of(alloc, words)?;
    named_request(alloc, &matches)
}

/// What `clap` finds in the arguments, where its definition of the command line accepts them.
fn matches_of<'a>(alloc: Global, words: &'a [String]) -> Result<ArgMatches<'a>, WordsFault>
    ensures accepted { OnOk result (is_accepted (map string_bytes words.now) ≡ true) }
    ensures found { IfOk result (λ matches.
        subcommand_rows_of matches ≡ subcommand_of lockstep_app (map string_bytes words.now)) }
    ensures refused { result ≡ Err WordsFault.Refused →
        is_accepted (map string_bytes words.now) ≡ false }
{
    let command = lockstep_command(alloc)?;
    match command.try_get_matches_from(words) {
        Ok(matches) => Ok(matches),
        Err(error) => Err(fault_by(error.kind())),
    }
}

/// The fault of `clap`'s kind of error: out of memory, or arguments that its definition does
/// not accept.
fn fault_by(kind: ErrorKind) -> WordsFault
    ensures { result ≡ WordsFault.Refused → kind ≢ ErrorKind.OutOfMemory }
{
    match kind {
        ErrorKind::OutOfMemory => WordsFault::NoMemory,
        _ => WordsFault::Refused,
    }
}

/// The request that the matches name.
fn named_request<'a>(alloc: Global, matches: &ArgMatches<'a>) -> Result<Request<'a>, WordsFault>
    ensures request { IfOk result
        (IsRead (found_request (subcommand_rows_of matches.now))) }
    ensures refused { result ≡ Err WordsFault.Refused →
        found_request (subcommand_rows_of matches.now) ≡ None }
{
    match matches.subcommand() {
        Some((command, found)) => request_for(alloc, command, found),
        None => Err(WordsFault::Refused),
    }
}

/// The request of this command, with what was found after it.
#[tactic(auto, unfolding(crate::specs::Reading::command_request))]
fn request_for<'a>(
    alloc: Global,
    command: &str,
    found: &ArgMatches<'a>,
) -> Result<Request<'a>, WordsFault>
    ensures request { IfOk result
        (IsRead (command_request command.now (rows_of (found_of found.now)))) }
    ensures refused { result ≡ Err WordsFault.Refused →
        command_request command.now (rows_of (found_of found.now)) ≡ None }
{
    match command {
        "drill" => Ok(Request::Drill {
            query: match_in(alloc, found, "script")?,
            record: value_in(found, "record"),
        }),
        "yaml" => Ok(Request::Yaml {
            files: names_in(alloc, found, 1)?,
        }),
        "check" => Ok(Request::Check {
            map_file: value_in(found, "map"),
            rules: names_in(alloc, found, 1)?,
        }),
        "route" => Ok(Request::Route(route_in(alloc, found)?)),
        "local" => local_in(alloc, found),
        "serve" => Ok(Request::Serve(serve_in(alloc, found)?)),
        "play" => play_in(alloc, found),
        "replay" => Ok(Request::Replay(match_in(alloc, found, "file")?)),
        "migrate" => migrate_in(alloc, found),
        "save" => save_in(alloc, found),
        "continue" => continue_in(alloc, found),
        "view" => view_in(alloc, found),
        "worlds" => worlds_in(alloc, found),
        "compare" => compare_in(alloc, found),
        "datagrams" => Ok(Request::Datagrams {
            script: value_in(found, "script").ok_or(WordsFault::Refused)?,
        }),
        "make" => Ok(Request::Make {
            number: number_in(found, "number").ok_or(WordsFault::Refused)?,
        }),
        _ => Err(WordsFault::Refused),
    }
}

/// The match by what the file of this option holds.
#[tactic(auto, unfolding(crate::specs::Reading::match_in))]
fn match_in<'a>(
    alloc: Global,
    found: &ArgMatches<'a>,
    option: &str,
) -> Result<MatchQuery<'a>, WordsFault>
    ensures query { IfOk result (λ query.
        match_in option.now (rows_of (found_of found.now)) ≡ Some (plain_match query)) }
    ensures few { IfOk result HasFewFiles }
    ensures refused { result ≡ Err WordsFault.Refused →
        match_in option.now (rows_of (found_of found.now)) ≡ None }
{
    let file = value_in(found, option).ok_or(WordsFault::Refused)?;
    let map_file = value_in(found, "map");
    let rules = names_in(alloc, found, 0)?;
    Ok(MatchQuery {
        file,
        map_file,
        rules,
    })
}

/// The request to play a script on threads of this machine.
#[tactic(auto, unfolding(crate::specs::Reading::local_in))]
fn local_in<'a>(alloc: Global, found: &ArgMatches<'a>) -> Result<Request<'a>, WordsFault>
    ensures request { IfOk result (IsRead (local_in (rows_of (found_of found.now)))) }
    ensures refused { result ≡ Err WordsFault.Refused →
        local_in (rows_of (found_of found.now)) ≡ None }
{
    let bots = bots_in(found).ok_or(WordsFault::Refused)?;
    let query = match_in(alloc, found, "script")?;
    Ok(Request::Local { query, bots })
}

/// The number of bots, up to `MAX_BOTS`; there are none where none are asked for.
#[tactic(auto, unfolding(crate::specs::Reading::bots_in))]
fn bots_in(found: &ArgMatches<'_>) -> Option<u8>
    ensures value { result ≡ bots_in (rows_of (found_of found.now)) }
    ensures most { IfSome result (λ bots. bots ≤ MAX_BOTS) }
{
    let bots = at_most(u32::from(MAX_BOTS), number_in(found, "bots").unwrap_or(0))?;
    Some(bots as u8)
}

/// The request to migrate a replay.
#[tactic(auto, unfolding(crate::specs::Reading::migrate_in))]
fn migrate_in<'a>(alloc: Global, found: &ArgMatches<'a>) -> Result<Request<'a>, WordsFault>
    ensures request { IfOk result (IsRead (migrate_in (rows_of (found_of found.now)))) }
    ensures refused { result ≡ Err WordsFault.Refused →
        migrate_in (rows_of (found_of found.now)) ≡ None }
{
    let to = value_in(found, "to").ok_or(WordsFault::Refused)?;
    let query = match_in(alloc, found, "file")?;
    Ok(Request::Migrate { query, to })
}

/// The request to play over a link.
#[tactic(auto, unfolding(crate::specs::Reading::play_in))]
fn play_in<'a>(alloc: Global, found: &ArgMatches<'a>) -> Result<Request<'a>, WordsFault>
    ensures request { IfOk result (IsRead (play_in (rows_of (found_of found.now)))) }
    ensures refused { result ≡ Err WordsFault.Refused →
        play_in (rows_of (found_of found.now)) ≡ None }
{
    let at = value_in(found, "at").ok_or(WordsFault::Refused)?;
    let player = player_in(found).ok_or(WordsFault::Refused)?;
    let is_quiet = has_flag(found, "quiet");
    let map_file = value_in(found, "map");
    let rules = names_in(alloc, found, 0)?;
    played_by(at, is_quiet, map_file, rules, player).ok_or(WordsFault::Refused)
}

/// The request of a player at a server, with a log or without one, over this map and these rules.
fn played_by<'a>(
    at: &'a str,
    is_quiet: bool,
    map_file: Option<&'a str>,
    rules: FileNames<'a>,
    player: Player<'a>,
) -> Option<Request<'a>>
    requires { length rules ≤ MAX_FILES }
    ensures request { option_map plain_of result
        ≡ played_by at.entry.now is_quiet (plain_name map_file.entry) rules.entry
        (plain_player player.entry) }
    ensures bounds { IfSome result IsWithinBounds }
{
    match player {
        Player::Script(file) => {
            let query = MatchQuery {
                file,
                map_file,
                rules,
            };
            Some(Request::Play {
                query,
                at,
                is_quiet,
            })
        }
        Player::Bot { frames } => {
            let frames = at_most(MAX_FRAMES, frames)?;
            Some(Request::PlayBot(BotQuery {
                at,
                frames,
                is_quiet,
                map_file,
                rules,
            }))
        }
    }
}

/// Who plays over a link: `--script` stands alone, or `--bot` and `--frames` without it.
#[tactic(auto, unfolding(crate::specs::Reading::player_in))]
fn player_in<'a>(found: &ArgMatches<'a>) -> Option<Player<'a>>
    ensures { option_map plain_player result ≡ player_in (rows_of (found_of found.now)) }
{
    let script = value_in(found, "script");
    let frames = number_in(found, "frames");
    match (script, has_flag(found, "bot"), frames) {
        (Some(file), false, None) => Some(Player::Script(file)),
        (None, true, Some(frames)) => Some(Player::Bot { frames }),
        _ => None,
    }
}

/// Whether the option without a value is given.
#[tactic(auto, unfolding(crate::specs::Reading::has_flag))]
pub(crate) fn has_flag(found: &ArgMatches<'_>, option: &str) -> bool
    ensures { result ≡ has_flag option.now (rows_of (found_of found.now)) }
{
    match value_in(found, option) {
        Some(value) => value == "true",
        None => false,
    }
}

/// The request to write a save of a replay.
#[tactic(auto, unfolding(crate::specs::Reading::save_in))]
fn save_in<'a>(alloc: Global, found: &ArgMatches<'a>) -> Result<Request<'a>, WordsFault>
    ensures request { IfOk result (IsRead (save_in (rows_of (found_of found.now)))) }
    ensures refused { result ≡ Err WordsFault.Refused →
        save_in (rows_of (found_of found.now)) ≡ None }
{
    let frames = number_in(found, "frames").ok_or(WordsFault::Refused)?;
    let to = value_in(found, "to").ok_or(WordsFault::Refused)?;
    let query = match_in(alloc, found, "file")?;
    Ok(Request::Save { query, frames, to })
}

/// The request to run the later frames of a replay from a save on.
#[tactic(auto, unfolding(crate::specs::Reading::continue_in))]
fn continue_in<'a>(alloc: Global, found: &ArgMatches<'a>) -> Result<Request<'a>, WordsFault>
    ensures request { IfOk result (IsRead (continue_in (rows_of (found_of found.now)))) }
    ensures refused { result ≡ Err WordsFault.Refused →
        continue_in (rows_of (found_of found.now)) ≡ None }
{
    let save = value_in(found, "save").ok_or(WordsFault::Refused)?;
    let query = match_in(alloc, found, "file")?;
    Ok(Request::Continue { query, save })
}

/// The request to show what a client has seen of a replay.
#[tactic(auto, unfolding(crate::specs::Reading::view_in))]
fn view_in<'a>(alloc: Global, found: &ArgMatches<'a>) -> Result<Request<'a>, WordsFault>
    ensures request { IfOk result (IsRead (view_in (rows_of (found_of found.now)))) }
    ensures refused { result ≡ Err WordsFault.Refused →
        view_in (rows_of (found_of found.now)) ≡ None }
{
    let client = number_in(found, "client").ok_or(WordsFault::Refused)?;
    let query = match_in(alloc, found, "file")?;
    Ok(Request::View { query, client })
}

/// The request to print worlds of a replay.
#[tactic(auto, unfolding(crate::specs::Reading::worlds_in))]
fn worlds_in<'a>(alloc: Global, found: &ArgMatches<'a>) -> Result<Request<'a>, WordsFault>
    ensures request { IfOk result (IsRead (worlds_in (rows_of (found_of found.now)))) }
    ensures refused { result ≡ Err WordsFault.Refused →
        worlds_in (rows_of (found_of found.now)) ≡ None }
{
    let range = range_in(found).ok_or(WordsFault::Refused)?;
    let query = match_in(alloc, found, "file")?;
    Ok(Request::Worlds { query, range })
}

/// The worlds that are asked for.
#[tactic(auto, unfolding(crate::specs::Reading::range_in))]
fn range_in(found: &ArgMatches<'_>) -> Option<WorldRange>
    ensures range { option_map plain_range result ≡ range_in (rows_of (found_of found.now)) }
    ensures steps { IfSome result (λ range. 1 ≤ range.every) }
{
    let every = step_or(found, "every", DEFAULT_EVERY)?;
    let from = number_in(found, "from").unwrap_or(DEFAULT_FROM);
    let to = number_in(found, "to");
    Some(WorldRange { from, to, every })
}

/// The request to compare two saves or two replays.
#[tactic(auto, unfolding(crate::specs::Reading::compare_in))]
fn compare_in<'a>(alloc: Global, found: &ArgMatches<'a>) -> Result<Request<'a>, WordsFault>
    ensures request { IfOk result (IsRead (compare_in (rows_of (found_of found.now)))) }
    ensures refused { result ≡ Err WordsFault.Refused →
        compare_in (rows_of (found_of found.now)) ≡ None }
{
    let second = value_in(found, "with").ok_or(WordsFault::Refused)?;
    let query = match_in(alloc, found, "file")?;
    Ok(Request::Compare { query, second })
}

/// The match that is to be served.
#[tactic(auto, unfolding(crate::specs::Reading::serve_in))]
fn serve_in<'a>(alloc: Global, found: &ArgMatches<'a>) -> Result<ServeQuery<'a>, WordsFault>
    ensures query { IfOk result
        (λ query. serve_in (rows_of (found_of found.now)) ≡ Some (plain_serve query)) }
    ensures few { IfOk result (λ query. length query.rules ≤ MAX_FILES) }
    ensures clients { IfOk result (λ query. IsCount query.clients) }
    ensures host { IfOk result (λ query. FitsHost query.host) }
    ensures refused { result ≡ Err WordsFault.Refused →
        serve_in (rows_of (found_of found.now)) ≡ None }
{
    let at = value_in(found, "at").ok_or(WordsFault::Refused)?;
    let clients = count_in(found, "clients", MAX_CLIENTS).ok_or(WordsFault::Refused)?;
    let lag = count_or(found, "lag", DEFAULT_LAG, MAX_LAG).ok_or(WordsFault::Refused)?;
    let seed = number_in(found, "seed").unwrap_or(DEFAULT_SEED);
    let host = host_in(found, clients).ok_or(WordsFault::Refused)?;
    let record_file = value_in(found, "record");
    let map_file = value_in(found, "map");
    let rules = names_in(alloc, found, 0)?;
    Ok(ServeQuery {
        at,
        clients,
        lag,
        seed,
        host,
        record_file,
        map_file,
        rules,
    })
}

/// The route that is asked for.
#[tactic(auto, unfolding(crate::specs::Reading::route_in))]
fn route_in<'a>(alloc: Global, found: &ArgMatches<'a>) -> Result<RouteQuery<'a>, WordsFault>
    ensures query { IfOk result
        (λ query. route_in (rows_of (found_of found.now)) ≡ Some (plain_route query)) }
    ensures few { IfOk result (λ query. length query.rules ≤ MAX_FILES) }
    ensures refused { result ≡ Err WordsFault.Refused →
        route_in (rows_of (found_of found.now)) ≡ None }
{
    let map_file = value_in(found, "map").ok_or(WordsFault::Refused)?;
    let kind = value_in(found, "kind").ok_or(WordsFault::Refused)?;
    let from = cell_in(found, "from").ok_or(WordsFault::Refused)?;
    let to = cell_in(found, "to").ok_or(WordsFault::Refused)?;
    let rules = names_in(alloc, found, 1)?;
    Ok(RouteQuery {
        map_file,
        kind,
        from,
        to,
        rules,
    })
}

/// The value of an option, where it is given.
pub(crate) fn value_in<'a>(found: &ArgMatches<'a>, option: &str) -> Option<&'a str>
    ensures { option_map (λ value. value.now) result
        ≡ first_of option.now (rows_of (found_of found.now)) }
{
    found.get_str(option)
}

/// The cell that an option writes, where it is given and writes one.
#[tactic(auto, unfolding(crate::specs::Reading::cell_in))]
fn cell_in(found: &ArgMatches<'_>, option: &str) -> Option<CPos>
    ensures { result ≡ cell_in option.now (rows_of (found_of found.now)) }
{
    let (x, y) = read_cell(value_in(found, option)?)?;
    Some(CPos { x, y })
}

/// The number that an option writes, where it is given and writes one.
#[tactic(auto, unfolding(crate::specs::Reading::number_in))]
pub(crate) fn number_in(found: &ArgMatches<'_>, option: &str) -> Option<u32>
    ensures { result ≡ number_in option.now (rows_of (found_of found.now)) }
{
    found.get_one(option)
}

/// The number that an option writes, where it is given and writes one from 1 to `most`.
#[tactic(auto, unfolding(crate::specs::Reading::count_in))]
fn count_in(found: &ArgMatches<'_>, option: &str, most: u8) -> Option<u8>
    ensures value { result ≡ count_in most option.now (rows_of (found_of found.now)) }
    ensures least { IfSome result (λ count. 1 ≤ count) }
    ensures most { IfSome result (λ count. count ≤ most) }
{
    up_to(most, number_in(found, option)?)
}

/// The same, where the option may be left out for a number.
#[tactic(auto, unfolding(crate::specs::Reading::count_or))]
fn count_or(found: &ArgMatches<'_>, option: &str, default: u8, most: u8) -> Option<u8>
    ensures { result ≡ count_or default most option.now (rows_of (found_of found.now)) }
{
    up_to(most, number_in(found, option).unwrap_or(u32::from(default)))
}

/// The number that an option writes, where it writes one from 1 on; it may be left out for another
/// one.
#[tactic(auto, unfolding(crate::specs::Reading::step_or))]
fn step_or(found: &ArgMatches<'_>, option: &str, default: u32) -> Option<u32>
    ensures value { result ≡ step_or default option.now (rows_of (found_of found.now)) }
    ensures least { IfSome result (λ step. 1 ≤ step) }
{
    from_one(number_in(found, option).unwrap_or(default))
}

/// The number, if it is one from 1 on.
fn from_one(number: u32) -> Option<u32>
    ensures value { result ≡ from_one number }
    ensures least { IfSome result (λ step. 1 ≤ step) }
{
    if 1 <= number { Some(number) } else { None }
}

/// The number, if it is one from 1 to `most`.
fn up_to(most: u8, number: u32) -> Option<u8>
    ensures value { result ≡ up_to most number }
    ensures least { IfSome result (λ count. 1 ≤ count) }
    ensures most { IfSome result (λ count. count ≤ most) }
{
    if 1 <= number && number <= u32::from(most) {
        Some(number as u8)
    } else {
        None
    }
}

/// The number, if it is one up to `most`.
fn at_most(most: u32, number: u32) -> Option<u32>
    ensures value { result ≡ at_most most number }
    ensures most { IfSome result (λ number. number ≤ most) }
{
    if number <= most { Some(number) } else { None }
}

/// The positional arguments, where there are at least so many and no more than are allowed.
#[tactic(auto, unfolding(crate::specs::Reading::names_in))]
fn names_in<'a>(
    alloc: Global,
    found: &ArgMatches<'a>,
    least: usize,
) -> Result<FileNames<'a>, WordsFault>
    ensures few { IfOk result (λ names. length names ≤ MAX_FILES) }
    ensures names { IfOk result
        (λ names. names_in least (rows_of (found_of found.now)) ≡ Some names) }
    ensures refused { result ≡ Err WordsFault.Refused →
        names_in least (rows_of (found_of found.now)) ≡ None }
{
    match used_names(found) {
        Some(names) if is_allowed(least, names.len()) => {
            Ok(FileNames::from_vec(names.to_vec(alloc)?))
        }
        None if is_allowed(least, 0) => Ok(FileNames::from_vec(Vec::new(alloc))),
        _ => Err(WordsFault::Refused),
    }
}

/// The positional arguments, where a use of them was found.
fn used_names<'b, 'a>(found: &'b ArgMatches<'a>) -> Option<&'b [&'a str]>
    ensures { option_map (λ names. map (λ name. name.now) names.now) result
        ≡ all_of (codes "names") (rows_of (found_of found.now)) }
{
    found.get_strs("names")
}

/// Whether so many positional arguments are allowed, where a command takes at least so many.
fn is_allowed(least: usize, count: usize) -> bool
    ensures { result ≡ is_allowed least count }
{
    least <= count && count <= MAX_FILES
}
