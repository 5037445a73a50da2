ghost use Rattle.std.specs.Prelude.{◌≡◌, ◌∷◌, ◌+◌, ◌<◌, ◌≤◌, ◌^◌, [], length, MatchOption};
ghost use Rattle.std.specs.List.{prefix_len};
ghost use Rattle.base.specs.Lines.{lines_of};
ghost use Rattle.drill_words.specs.Words.{words_of};
ghost use Rattle.drill_words.specs.KeptLine.{kept_from, kept_lines, is_of_line, is_kept};

use crate::word_cursor::WordCursor;
use crate::words::leading_blanks;
use std::marker::Model;

/// The kept lines of a text that are still to be read, from the first. Lines end at a line feed.
/// Lines without words, and lines whose first word begins with `#`, are passed over.
#[derive(Drop)]
pub struct KeptLines<'a> {
    number: u32,
    rest: &'a [u8],
}

impl<'a> Model for KeptLines<'a> {
    ghost use Rattle.std.specs.Prelude.{List, ◌+◌, ◌<◌, ◌^◌, length};
    ghost use Rattle.base.specs.Lines.{lines_of};
    ghost use Rattle.drill_words.specs.KeptLine.{KeptLine, kept_from};

    ghost Value = { List KeptLine };

    ghost view = { λ lines. kept_from lines.number (lines_of lines.rest.now) };

    ghost invariant = { λ lines. lines.number + length lines.rest.now < 2 ^ 32 };
}

impl<'a> KeptLines<'a> {
    /// The kept lines of a text of fewer than 2^32 - 1 bytes.
    pub fn of(text: &'a [u8]) -> KeptLines<'a>
        requires { length text.now + 1 < 2 ^ 32 }
        ensures { result ≡ kept_lines text.now }
    {
        KeptLines {
            number: 1,
            rest: text,
        }
    }

    /// Takes the next kept line: its number in the text, from 1, and its words. None where no line
    /// is left.
    #[inline(always)]
    pub fn next(&mut self) -> Option<(u32, WordCursor<'a>)>
        ensures { MatchOption result (self.old ≡ [])
            (λ line. self.old ≡ record { number = line.0; words = line.1 } ∷ self.new) }
    {
        let kept = first_kept(self.number, self.rest)?;
        self.number = kept.number + 1;
        self.rest = kept.rest;
        Some((kept.number, WordCursor::of(kept.line)))
    }
}

/// The first kept line of a text, and what follows it.
#[derive(Drop)]
struct FirstKept<'a> {
    number: u32,
    line: &'a [u8],
    rest: &'a [u8],
}

/// The first kept line of a text whose first line has this number.
#[tactic(auto, using(crate::proofs::KeptLineLemmas::kept_steps))]
fn first_kept(first: u32, text: &[u8]) -> Option<FirstKept<'_>>
    requires { first + length text.now < 2 ^ 32 }
    ensures line { MatchOption result (kept_from first (lines_of text.now) ≡ [])
        (λ kept. kept_from first (lines_of text.now)
        ≡ record { number = kept.number; words = words_of kept.line.now }
        ∷ kept_from (kept.number + 1) (lines_of kept.rest.now)) }
    ensures fits { MatchOption result (Unit {0})
        (λ kept. kept.number + 1 + length kept.rest.now < 2 ^ 32) }
{
    let mut number = first;
    let mut rest = text;
    while !rest.is_empty() {
        let (line, after) = split_line(rest);
        if is_kept(line) {
            return Some(FirstKept {
                number,
                line,
                rest: after,
            });
        }
        number += 1;
        rest = after;
    }
    None
}

/// True where the line has a word and its first word doesn't begin with `#`.
#[tactic(auto, using(crate::proofs::KeptLineLemmas::comment_steps))]
fn is_kept(line: &[u8]) -> bool
    ensures { result ≡ is_kept (words_of line.now) }
{
    let blanks = leading_blanks(line);
    if blanks == line.len() {
        return false;
    }
    line[blanks] != b'#'
}

/// The first line of a text, and what follows it.
#[tactic(auto, using(crate::proofs::KeptLineLemmas::line_steps))]
fn split_line(text: &[u8]) -> (&[u8], &[u8])
    requires { 0 < length text.now }
    ensures lines { lines_of text.now ≡ result.0.now ∷ lines_of result.1.now }
    ensures shorter { length result.1.now < length text.now }
{
    let length = line_length(text);
    let (line, from_end) = text.split_at(length);
    match from_end.split_first() {
        None => (line, from_end),
        Some((_, rest)) => (line, rest),
    }
}

/// How many bytes come before the first line feed.
fn line_length(text: &[u8]) -> usize
    ensures count { result ≡ prefix_len is_of_line text.now }
    ensures limit { result ≤ length text.now }
{
    for (index, byte) in text.iter().enumerate() {
        if *byte == b'\n' {
            return index;
        }
    }
    text.len()
}
