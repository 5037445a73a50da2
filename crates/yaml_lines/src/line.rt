ghost use Rattle.std.specs.Prelude.{◌≡◌, ◌<◌, ◌≤◌, ◌+◌, ◌-◌, ◌/◌, ◌==◌, true, false, ◌++◌};
ghost use Rattle.std.specs.Prelude.{MatchOption, slice_index, length, take, drop, string_bytes};
ghost use Rattle.std.specs.Prelude.{IfOk, IfErr, IfSome, OnOk, Some, None, option_map};
ghost use Rattle.yaml_lines.specs.Kept.{line_fault, IsLineFault};
ghost use Rattle.yaml_lines.specs.Found.{words_found};
ghost use Rattle.yaml_lines.specs.Reading.{words_of, after_indent, level_of, without_comment};
ghost use Rattle.yaml_lines.specs.Reading.{before_colon, after_colon, unguarded_start};
ghost use Rattle.yaml_lines.specs.Reading.{unguarded_end, unescape, key_of, value_of};

use crate::fault::LineFault;
use crate::found::Found;
use crate::origin::Origin;
use crate::place::Place;
use crate::text::Text;
use crate::{MAX_LEVELS, MAX_LINE_BYTES, MAX_LINES, blanks};
use base::NoMemory;
use std::alloc::Global;
use std::str;

/// The level of a line, and what stands after its indent.
#[tactic(auto, using(crate::proofs::Cuts::cuts))]
fn split_indent(line: &str) -> (usize, &str)
    ensures level { result.0 ≡ level_of line.now }
    ensures text { result.1.now ≡ after_indent line.now }
{
    let mut tabs = 0;
    let mut spaces = 0;
    let mut rest = line;
    loop {
        match rest.as_bytes() {
            [b'\t', ..] => tabs += 1,
            [b' ', ..] => spaces += 1,
            _ => return (tabs + spaces / 4, rest),
        }
        rest = &rest[1..];
    }
}

/// The text before its comment.
fn without_comment(text: &str) -> &str
    ensures { result.now ≡ without_comment 0 text.now }
{
    let mut before = 0;
    for (at, byte) in text.as_bytes().iter().enumerate() {
        if *byte == b'#' && before != b'\\' {
            return &text[..at];
        }
        before = *byte;
    }
    text
}

/// What stands before the first colon, and what stands after it.
#[tactic(auto, using(crate::proofs::Cuts::cuts))]
fn split_colon(text: &str) -> (&str, &str)
    ensures key { result.0.now ≡ before_colon text.now }
    ensures value { result.1.now ≡ after_colon text.now }
{
    for (at, byte) in text.as_bytes().iter().enumerate() {
        if *byte == b':' {
            return (&text[..at], &text[at + 1..]);
        }
    }
    (text, "")
}

/// The text without the backslash that keeps a blank at its start.
#[tactic(auto, using(crate::proofs::Cuts::cuts))]
fn unguarded_start(text: &str) -> &str
    ensures { result.now ≡ unguarded_start text.now }
{
    match text.as_bytes() {
        [b'\\', rest @ ..] if blanks::begins_blank(rest) => &text[1..],
        _ => text,
    }
}

/// The text without the backslash that keeps a blank at its end.
#[tactic(auto, unfolding(crate::specs::Reading::unguarded_end))]
fn unguarded_end(text: &str) -> &str
    ensures { result.now ≡ unguarded_end text.now }
{
    match text.as_bytes() {
        [front @ .., b'\\'] if blanks::ends_blank(front) => &text[..front.len()],
        _ => text,
    }
}

/// Where the first `\#` stands.
#[tactic(auto, using(crate::proofs::Escapes::unescape_at_end))]
pub fn find_escape(text: &[u8]) -> Option<usize>
    ensures { MatchOption result (unescape text.now ≡ text.now)
        (λ at. (at + 1 < length text.now) × (slice_index text.now at ≡ 92) × (slice_index text.now (at + 1) ≡ 35)
        × (unescape text.now ≡ take at text.now ++ unescape (drop (at + 1) text.now))) }
{
    for at in 0..text.len().saturating_sub(1) {
        if text[at] == b'\\' && text[at + 1] == b'#' {
            return Some(at);
        }
    }
    None
}

/// The text with each `\#` made a `#`.
pub fn unescape(alloc: Global, text: &str) -> Result<String, NoMemory>
    ensures { IfOk result (λ made. string_bytes made ≡ unescape text.now) }
{
    let mut made = String::with_capacity(alloc, text.len())?;
    let mut rest = text;
    while let Some(at) = find_escape(rest.as_bytes()) {
        made.push_str(&rest[..at])?;
        rest = &rest[at + 1..];
    }
    made.push_str(rest)?;
    Ok(made)
}

/// The key and the value of what stands after an indent.
#[tactic(auto, unfolding(crate::specs::Reading::key_of, crate::specs::Reading::value_of))]
fn read_words(alloc: Global, origin: Origin<'_>, text: &str) -> Result<(Text, Text), NoMemory>
    ensures { IfOk result (λ words. (words.0 ≡ key_of text.now) × (words.1 ≡ value_of text.now)) }
{
    let (key, value) = split_colon(text);
    let key_start = blanks::trim_start(key);
    let key_origin = origin.of_rest(key.as_bytes(), key_start.as_bytes());
    let key = key_origin.words(alloc, blanks::trim_end(key_start))?;
    let value_start = blanks::trim_start(value);
    let trimmed = blanks::trim_end(value_start);
    let unguarded = unguarded_start(trimmed);
    let value_origin = origin
        .of_rest(text.as_bytes(), value_start.as_bytes())
        .of_rest(trimmed.as_bytes(), unguarded.as_bytes());
    let value = value_origin.words(alloc, unguarded_end(unguarded))?;
    Ok((key, value))
}

/// Reads one line by itself: what it says, or nothing where only blanks and a comment stand in it.
/// Levels up to `allowed` may follow the lines before it. Its words share the text of the file, if
/// the line begins at `origin`.
#[tactic(auto, using(crate::proofs::Utf8Tests::utf8_tests), unfolding(crate::specs::Kept::line_fault, crate::specs::Reading::words_of))]
pub fn read_line(
    alloc: Global,
    place: Place,
    allowed: usize,
    origin: Origin<'_>,
    line: &[u8],
) -> Result<Option<Found>, LineFault>
    ensures sound { OnOk result (line_fault place allowed line.now ≡ None) }
    ensures found { IfOk result (λ found. option_map words_found found ≡ words_of line.now) }
    ensures level { IfOk result (λ found. IfSome found (λ f. f.level ≤ allowed)) }
    ensures fault { IfErr result (λ fault. IsLineFault fault (line_fault place allowed line.now)) }
{
    if place.line > MAX_LINES {
        return Err(LineFault::TooManyLines { place });
    }
    let Ok(line) = str::from_utf8(line) else {
        return Err(LineFault::NotUtf8 { place });
    };
    if line.len() > MAX_LINE_BYTES {
        return Err(LineFault::LineTooLong { place });
    }
    let (level, indented) = split_indent(line);
    let text = without_comment(indented);
    if blanks::trim_start(text).is_empty() {
        return Ok(None);
    }
    if level > allowed {
        return Err(LineFault::BadIndent { place });
    }
    if level >= MAX_LEVELS {
        return Err(LineFault::TooDeep { place });
    }
    let origin = origin.of_rest(line.as_bytes(), indented.as_bytes());
    let (key, value) = read_words(alloc, origin, text)?;
    Ok(Some(Found { level, key, value }))
}
