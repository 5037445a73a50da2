//! The words of a line, found from the left.
ghost use Rattle.std.specs.Prelude.{◌≡◌, ◌∷◌, ◌≤◌, [], length, take, MatchOption, true, Some};
ghost use Rattle.std.specs.Char.{is_ascii_digit};
ghost use Rattle.std.specs.List.{list_all, prefix_len};
ghost use Rattle.std.specs.Str.{bytes_eq};
ghost use Rattle.base.specs.Numbers.{number_of, value_of};
ghost use Rattle.base.specs.declared.numbers.TheConstants.{MAX_DIGITS};
ghost use Rattle.drill_words.specs.Words.{is_blank, is_of_word, words_of, ends_word};
ghost use Rattle.drill_words.specs.Read.{none_left};

use crate::numeral::Numeral;
use base::MAX_DIGITS;

/// A space, a tab or a carriage return.
fn is_blank(byte: u8) -> bool
    ensures { result ≡ is_blank byte }
{
    byte == b' ' || byte == b'\t' || byte == b'\r'
}

/// True where the word is this text.
#[inline(always)]
pub(crate) fn is_text(word: &[u8], text: &[u8]) -> bool
    ensures { result ≡ bytes_eq word.now text.now }
{
    if word.len() != text.len() {
        return false;
    }
    for index in 0..text.len() {
        if word[index] != text[index] {
            return false;
        }
    }
    true
}

/// True where a line has no word.
#[tactic(auto, using(crate::proofs::WordsLemmas::blank_steps))]
pub(crate) fn is_blank_line(line: &[u8]) -> bool
    ensures { result ≡ none_left (words_of line.now) }
{
    leading_blanks(line) == line.len()
}

/// How many blanks a line begins with.
pub(crate) fn leading_blanks(line: &[u8]) -> usize
    ensures count { result ≡ prefix_len is_blank line.now }
    ensures limit { result ≤ length line.now }
{
    for (index, byte) in line.iter().enumerate() {
        if !is_blank(*byte) {
            return index;
        }
    }
    line.len()
}

/// How many bytes come before the first blank.
fn word_length(line: &[u8]) -> usize
    ensures count { result ≡ prefix_len is_of_word line.now }
    ensures limit { result ≤ length line.now }
{
    for (index, byte) in line.iter().enumerate() {
        if is_blank(*byte) {
            return index;
        }
    }
    line.len()
}

/// The first word of a line, and what follows it.
#[tactic(auto, using(crate::proofs::WordsLemmas::word_steps))]
pub(crate) fn split_word(line: &[u8]) -> Option<(&[u8], &[u8])>
    ensures { MatchOption result (words_of line.now ≡ [])
        (λ split. words_of line.now ≡ split.0.now ∷ words_of split.1.now) }
{
    let blanks = leading_blanks(line);
    if blanks == line.len() {
        return None;
    }
    let (_, from_word) = line.split_at(blanks);
    let length = word_length(from_word);
    Some(from_word.split_at(length))
}

/// The first word of a line, where it writes a number, and what follows it. None may come for any
/// line.
#[tactic(auto, using(crate::proofs::NumeralLemmas::numeral_steps))]
pub(crate) fn split_numeral(line: &[u8]) -> Option<(Numeral<'_>, &[u8])>
    ensures { MatchOption result (Unit {0}) (λ split.
        (words_of line.now ≡ split.0.word.now ∷ words_of split.1.now)
        × (split.0.number ≡ number_of split.0.word.now)) }
{
    let (_, from_word) = line.split_at(leading_blanks(line));
    let (count, value) = leading_digits(from_word);
    let (word, rest) = from_word.split_at(count);
    if count == 0 || !ends_word(rest) {
        return None;
    }
    let numeral = Numeral {
        word,
        number: Some(value),
    };
    Some((numeral, rest))
}

/// How many digits a line begins with, but at most `MAX_DIGITS`, and what they write.
fn leading_digits(line: &[u8]) -> (usize, u64)
    ensures limit { result.0 ≤ length line.now }
    ensures few { result.0 ≤ MAX_DIGITS }
    ensures digits { list_all is_ascii_digit (take result.0 line.now) ≡ true }
    ensures value { result.1 ≡ value_of (take result.0 line.now) }
{
    let mut value: u64 = 0;
    for (index, byte) in line.iter().enumerate() {
        if index == MAX_DIGITS || !byte.is_ascii_digit() {
            return (index, value);
        }
        value = value * 10 + u64::from(*byte - b'0');
    }
    (line.len(), value)
}

/// True where a word before these bytes has come to its end.
fn ends_word(rest: &[u8]) -> bool
    ensures { result ≡ ends_word rest.now }
{
    match rest.first() {
        None => true,
        Some(byte) => is_blank(*byte),
    }
}
