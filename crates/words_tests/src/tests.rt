//! Command lines with the request that they name, or that are refused.

use crate::lines::{
    COMMANDS_OF_NAMES, LINES, LINES_OF_BOTS_AND_DATAGRAMS, LINES_OF_SERVERS, OPTIONS,
};
use base::NoMemory;
use command_words::{
    BotQuery, FileNames, HostOptions, MAX_FILES, MatchQuery, Request, RouteQuery, ServeQuery,
    WordsFault, WorldRange, host_options, read_arguments,
};
use std::alloc::{AllocError, Global};
use std::fmt::Write;
use std::test::Fail;

const REFUSED: &str = "refused";

/// The program's name, and after it these words, which `|` separates.
fn command_line(alloc: Global, words: &str) -> Result<Vec<String>, NoMemory> {
    let mut line = Vec::new(alloc);
    line.push(String::from_str(alloc, "lockstep")?)?;
    for word in words.split('|') {
        line.push(String::from_str(alloc, word)?)?;
    }
    Ok(line)
}

/// Adds these words and then the name between angle brackets.
fn put_name(text: &mut String, words: &str, name: &str) -> Result<(), NoMemory> {
    text.push_str(words)?;
    text.push_str(" <")?;
    text.push_str(name)?;
    text.push('>')
}

/// Adds the map, if one is named, and the rule files.
fn put_rules(
    text: &mut String,
    map_file: Option<&str>,
    rules: &FileNames<'_>,
) -> Result<(), NoMemory> {
    if let Some(map_file) = map_file {
        put_name(text, " map", map_file)?;
    }
    for name in rules.as_slice() {
        put_name(text, "", name)?;
    }
    Ok(())
}

/// Adds these words and then a match.
fn put_match(text: &mut String, words: &str, query: &MatchQuery<'_>) -> Result<(), NoMemory> {
    put_name(text, words, query.file)?;
    put_rules(text, query.map_file, &query.rules)
}

/// Adds a sign and then the number.
fn put_number(text: &mut String, sign: char, number: u32) -> Result<(), NoMemory> {
    text.push(sign)?;
    match write!(text, "{number}") {
        Ok(()) => Ok(()),
        Err(_) => Err(AllocError),
    }
}

/// Adds a route and its options.
fn put_route(text: &mut String, query: &RouteQuery<'_>) -> Result<(), NoMemory> {
    put_name(text, "route", query.map_file)?;
    put_name(text, "", query.kind)?;
    for cell in [query.from, query.to] {
        put_number(text, ' ', u32::from(cell.x))?;
        put_number(text, ',', u32::from(cell.y))?;
    }
    put_rules(text, None, &query.rules)
}

/// Adds these words and then the seconds, if some are given.
fn put_seconds(text: &mut String, words: &str, seconds: Option<u32>) -> Result<(), NoMemory> {
    if let Some(seconds) = seconds {
        text.push_str(words)?;
        put_number(text, ' ', seconds)?;
    }
    Ok(())
}

/// Adds what is said of the log, the clocks and the ports.
fn put_host(text: &mut String, host: &HostOptions) -> Result<(), NoMemory> {
    if host.is_quiet {
        text.push_str(" quiet")?;
    }
    put_seconds(text, " patience", host.patience)?;
    put_seconds(text, " lobby", host.lobby)?;
    if let Some(ports) = host.udp_ports {
        text.push_str(" ports")?;
        put_number(text, ' ', u32::from(ports.first))?;
        put_number(text, '-', u32::from(ports.last))?;
    }
    Ok(())
}

/// Adds a match that is served, and its options.
fn put_serve(text: &mut String, query: &ServeQuery<'_>) -> Result<(), NoMemory> {
    put_name(text, "serve", query.at)?;
    put_number(text, ' ', u32::from(query.clients))?;
    put_number(text, ' ', u32::from(query.lag))?;
    put_number(text, ' ', query.seed)?;
    put_host(text, &query.host)?;
    if let Some(record) = query.record_file {
        put_name(text, " record", record)?;
    }
    put_rules(text, query.map_file, &query.rules)
}

/// Adds a match over a link that a script plays.
fn put_play(
    text: &mut String,
    at: &str,
    is_quiet: bool,
    query: &MatchQuery<'_>,
) -> Result<(), NoMemory> {
    text.push_str(if is_quiet { "play quiet" } else { "play" })?;
    put_name(text, " at", at)?;
    put_match(text, "", query)
}

/// Adds a save of a replay, after its number of frames and the file that it is written to.
fn put_save(
    text: &mut String,
    frames: u32,
    to: &str,
    query: &MatchQuery<'_>,
) -> Result<(), NoMemory> {
    text.push_str("save")?;
    put_number(text, ' ', frames)?;
    put_name(text, " to", to)?;
    put_match(text, "", query)
}

/// Adds worlds of a replay, after their range.
fn put_worlds(
    text: &mut String,
    range: WorldRange,
    query: &MatchQuery<'_>,
) -> Result<(), NoMemory> {
    text.push_str("worlds")?;
    put_number(text, ' ', range.from)?;
    match range.to {
        Some(to) => put_number(text, ' ', to)?,
        None => text.push_str(" end")?,
    }
    put_number(text, ' ', range.every)?;
    put_match(text, "", query)
}

/// Adds a drill, after the file that its replay is written to, if one is named.
fn put_drill(
    text: &mut String,
    record: Option<&str>,
    query: &MatchQuery<'_>,
) -> Result<(), NoMemory> {
    text.push_str("drill")?;
    if let Some(record) = record {
        put_name(text, " record", record)?;
    }
    put_match(text, "", query)
}

/// Adds a local match, with its bots, if it has some.
fn put_local(text: &mut String, bots: u8, query: &MatchQuery<'_>) -> Result<(), NoMemory> {
    text.push_str("local")?;
    if bots > 0 {
        text.push_str(" bots")?;
        put_number(text, ' ', u32::from(bots))?;
    }
    put_match(text, "", query)
}

/// Adds a match over a link that a bot plays.
fn put_bot(text: &mut String, query: &BotQuery<'_>) -> Result<(), NoMemory> {
    text.push_str(if query.is_quiet {
        "play quiet bot"
    } else {
        "play bot"
    })?;
    put_number(text, ' ', query.frames)?;
    put_name(text, " at", query.at)?;
    put_rules(text, query.map_file, &query.rules)
}

/// Adds a request.
fn put_request(text: &mut String, request: &Request<'_>) -> Result<(), NoMemory> {
    match request {
        Request::Drill { query, record } => put_drill(text, *record, query),
        Request::Local { query, bots } => put_local(text, *bots, query),
        Request::Serve(query) => put_serve(text, query),
        Request::Play {
            query,
            at,
            is_quiet,
        } => put_play(text, at, *is_quiet, query),
        Request::PlayBot(query) => put_bot(text, query),
        Request::Replay(query) => put_match(text, "replay", query),
        Request::Migrate { query, to } => {
            put_name(text, "migrate to", to)?;
            put_match(text, "", query)
        }
        Request::Save { query, frames, to } => put_save(text, *frames, to, query),
        Request::Continue { query, save } => {
            put_name(text, "continue from", save)?;
            put_match(text, "", query)
        }
        Request::View { query, client } => {
            text.push_str("view")?;
            put_number(text, ' ', *client)?;
            put_match(text, "", query)
        }
        Request::Worlds { query, range } => put_worlds(text, *range, query),
        Request::Compare { query, second } => {
            put_name(text, "compare with", second)?;
            put_match(text, "", query)
        }
        Request::Datagrams { script } => put_name(text, "datagrams", script),
        Request::Make { number } => {
            text.push_str("make")?;
            put_number(text, ' ', *number)
        }
        Request::Yaml { files } => {
            text.push_str("yaml")?;
            put_rules(text, None, files)
        }
        Request::Check { map_file, rules } => {
            text.push_str("check")?;
            put_rules(text, *map_file, rules)
        }
        Request::Route(query) => put_route(text, query),
    }
}

/// The request that a list of arguments names, of which the first is the program's name.
fn request_text(alloc: Global, words: &[String]) -> Result<String, NoMemory> {
    let mut text = String::new(alloc);
    match read_arguments(alloc, words) {
        Ok(request) => put_request(&mut text, &request)?,
        Err(WordsFault::Refused) => text.push_str(REFUSED)?,
        Err(WordsFault::NoMemory) => return Err(AllocError),
    }
    Ok(text)
}

/// The first line of a table whose words name another request than it says, or that says none.
fn wrong_line<'a>(alloc: Global, lines: &'a str) -> Result<Option<&'a str>, NoMemory> {
    for row in lines.lines() {
        if let Some((words, want)) = row.split_once(" => ") {
            let line = command_line(alloc, words)?;
            let got = request_text(alloc, &line)?;
            if got.as_str() != want {
                return Ok(Some(row));
            }
        } else if !row.starts_with('#') {
            return Ok(Some(row));
        }
    }
    Ok(None)
}

#[test]
fn lines_name_their_requests(rt: HostRuntime) -> Result<(), Fail> {
    let alloc = rt.alloc();
    assert_eq!(rt; wrong_line(alloc, LINES)?, None);
    Ok(())
}

/// What a list of arguments says of the log, the clocks and the ports.
fn options_text(alloc: Global, words: &[String]) -> Result<String, NoMemory> {
    let mut text = String::new(alloc);
    put_host(&mut text, &host_options(alloc, words)?)?;
    Ok(text)
}

#[test]
fn words_say_their_options(rt: HostRuntime) -> Result<(), Fail> {
    let alloc = rt.alloc();
    for (words, want) in OPTIONS.iter() {
        let line = command_line(alloc, words)?;
        let got = options_text(alloc, &line)?;
        assert_eq!(rt; got.as_str(), *want);
    }
    Ok(())
}

#[test]
fn lines_of_servers_name_their_requests(rt: HostRuntime) -> Result<(), Fail> {
    let alloc = rt.alloc();
    assert_eq!(rt; wrong_line(alloc, LINES_OF_SERVERS)?, None);
    Ok(())
}

#[test]
fn lines_of_bots_and_datagrams_name_their_requests(rt: HostRuntime) -> Result<(), Fail> {
    let alloc = rt.alloc();
    assert_eq!(rt; wrong_line(alloc, LINES_OF_BOTS_AND_DATAGRAMS)?, None);
    Ok(())
}

#[test]
fn lines_of_a_word_or_none(rt: HostRuntime) -> Result<(), Fail> {
    let alloc = rt.alloc();
    let nothing = request_text(alloc, &[])?;
    assert_eq!(rt; nothing.as_str(), REFUSED);
    let program = String::from_str(alloc, "lockstep")?;
    let alone = request_text(alloc, &[program])?;
    assert_eq!(rt; alone.as_str(), REFUSED);
    Ok(())
}

/// The request of a command with so many names, half of them after `--`.
fn request_of_many(alloc: Global, command: &str, count: usize) -> Result<String, NoMemory> {
    let mut line = command_line(alloc, command)?;
    for i in 0..count {
        if i == count / 2 {
            line.push(String::from_str(alloc, "--")?)?;
        }
        line.push(format!(in alloc; "{i}")?)?;
    }
    request_text(alloc, &line)
}

/// What is printed of a command with so many names.
fn text_of_many(alloc: Global, printed: &str, count: usize) -> Result<String, NoMemory> {
    let mut text = String::from_str(alloc, printed)?;
    for i in 0..count {
        put_name(&mut text, "", &format!(in alloc; "{i}")?)?;
    }
    Ok(text)
}

/// The three parts of a row.
fn parts(row: &str) -> Option<(&str, &str, &str)> {
    let (command, rest) = row.split_once(" => ")?;
    let (without, printed) = rest.split_once(" => ")?;
    Some((command, without, printed))
}

#[test]
fn numbers_of_names(rt: HostRuntime) -> Result<(), Fail> {
    let alloc = rt.alloc();
    for row in COMMANDS_OF_NAMES.lines() {
        let Some((command, without, printed)) = parts(row) else {
            return Err(Fail::new("a row without its parts"));
        };
        let got = request_of_many(alloc, command, 0)?;
        assert_eq!(rt; got.as_str(), without, "of {command}");
        let most = text_of_many(alloc, printed, MAX_FILES)?;
        let got = request_of_many(alloc, command, 64)?;
        assert_eq!(rt; got.as_str(), most.as_str());
        for count in [65, 66, 128] {
            let got = request_of_many(alloc, command, count)?;
            assert_eq!(rt; got.as_str(), REFUSED, "of {count}");
        }
    }
    Ok(())
}
