ghost use Rattle.std.specs.Prelude.{◌≡◌, ◌∷◌, ◌<◌, ◌≤◌, true, false, [], MatchOption};
ghost use Rattle.std.specs.Prelude.{MatchResult, IfOk, Ok, Err};
ghost use Rattle.base.specs.Numbers.{number_of};
ghost use Rattle.drill_words.specs.Words.{words_of};
ghost use Rattle.drill_words.specs.Read.{Takes, after_word, number_at, below, client_of, client_at};
ghost use Rattle.drill_words.specs.Read.{hash_at, none_left};

use crate::hash::read_hash;
use crate::numeral::Numeral;
use crate::word_fault::WordFault;
use crate::words::{is_blank_line, is_text, split_numeral, split_word};
use base::read_number;
use std::marker::Model;

/// The words of a line that are still to be read, from the left. Words are separated by spaces,
/// tabs and carriage returns.
#[derive(Drop)]
pub struct WordCursor<'a> {
    rest: &'a [u8],
}

impl<'a> Model for WordCursor<'a> {
    ghost use Rattle.std.specs.Prelude.{List, ℕ};
    ghost use Rattle.std.specs.List.{prefix_len};
    ghost use Rattle.drill_words.specs.Words.{words_of};

    ghost Value = { List (List ℕ) };

    ghost view = { λ cursor. words_of cursor.rest.now };
}

impl<'a> WordCursor<'a> {
    /// The words of a line.
    pub fn of(line: &'a [u8]) -> WordCursor<'a>
        ensures { result ≡ words_of line.now }
    {
        WordCursor { rest: line }
    }

    /// Takes the next word. None exactly where no word is left.
    pub fn next(&mut self) -> Option<&'a [u8]>
        ensures { MatchOption result ((self.old ≡ []) × (self.new ≡ []))
            (λ word. self.old ≡ word.now ∷ self.new) }
    {
        let (word, rest) = split_word(self.rest)?;
        self.rest = rest;
        Some(word)
    }

    /// Takes the next word, which has to be there: `BadWord` exactly where no word is left.
    pub fn required(&mut self) -> Result<&'a [u8], WordFault>
        ensures { MatchResult result (λ word. self.old ≡ word.now ∷ self.new)
            (λ fault. (self.old ≡ []) × (fault ≡ WordFault.BadWord)) }
    {
        match self.next() {
            Some(word) => Ok(word),
            None => Err(WordFault::BadWord),
        }
    }

    /// Takes this word and no other: `BadWord` exactly where another one or none comes next.
    #[tactic(auto, unfolding(crate::specs::Read::after_word))]
    pub fn word(&mut self, text: &[u8]) -> Result<(), WordFault>
        ensures { MatchResult result (λ _. after_word text.now self.old ≡ Ok self.new)
            (λ fault. after_word text.now self.old ≡ Err fault) }
    {
        if is_text(self.required()?, text) {
            Ok(())
        } else {
            Err(WordFault::BadWord)
        }
    }

    /// Takes a number from `least` to `most`, of one to ten digits. `BadWord` exactly where no word
    /// is left, `BadNumber` exactly where the next one is no such number.
    #[tactic(auto, unfolding(crate::specs::Read::number_at))]
    pub fn number(&mut self, least: u32, most: u32) -> Result<u32, WordFault>
        ensures taken { Takes result self.new (number_at least most self.old) }
        ensures low { IfOk result (λ number. least ≤ number) }
        ensures high { IfOk result (λ number. number ≤ most) }
    {
        match self.numeral()?.number {
            Some(number) if u64::from(least) <= number && number <= u64::from(most) => {
                Ok(number as u32)
            }
            _ => Err(WordFault::BadNumber),
        }
    }

    /// Takes the number of a client. `BadWord` exactly where no word is left, `BadNumber` exactly
    /// where the next one is no number, `NoSuchClient` exactly where that is not below the number
    /// of clients.
    #[tactic(auto, unfolding(crate::specs::Read::client_at))]
    pub fn client(&mut self, clients: u8) -> Result<u8, WordFault>
        ensures taken { Takes result self.new (client_at clients self.old) }
        ensures below { IfOk result (λ client. client < clients) }
    {
        below(self.numeral()?.number, clients)
    }

    /// Takes the next word, which has to be there, with the number that it writes.
    fn numeral(&mut self) -> Result<Numeral<'a>, WordFault>
        ensures { MatchResult result
            (λ numeral. (self.old ≡ numeral.word.now ∷ self.new)
            × (numeral.number ≡ number_of numeral.word.now))
            (λ fault. (self.old ≡ []) × (fault ≡ WordFault.BadWord)) }
    {
        if let Some((numeral, rest)) = split_numeral(self.rest) {
            self.rest = rest;
            return Ok(numeral);
        }
        let word = self.required()?;
        Ok(Numeral {
            word,
            number: read_number(word),
        })
    }

    /// Takes a hash: exactly 16 lower-case hexadecimal digits. `BadWord` exactly where another word
    /// or none comes next.
    #[tactic(auto, unfolding(crate::specs::Read::hash_at))]
    pub fn hash(&mut self) -> Result<u64, WordFault>
        ensures { Takes result self.new (hash_at self.old) }
    {
        match read_hash(self.required()?) {
            Some(hash) => Ok(hash),
            None => Err(WordFault::BadWord),
        }
    }

    /// True where no word is left.
    pub fn is_done(&self) -> bool
        ensures { result ≡ none_left self.now }
    {
        is_blank_line(self.rest)
    }

    /// Finds that no word is left: `BadWord` exactly where one is.
    pub fn end(&self) -> Result<(), WordFault>
        ensures { MatchResult result (λ _. none_left self.now ≡ true)
            (λ fault. (none_left self.now ≡ false) × (fault ≡ WordFault.BadWord)) }
    {
        if self.is_done() {
            Ok(())
        } else {
            Err(WordFault::BadWord)
        }
    }
}

/// The client that a word names.
pub(crate) fn client_of(word: &[u8], clients: u8) -> Result<u8, WordFault>
    ensures client { result ≡ client_of clients word.now }
    ensures below { IfOk result (λ client. client < clients) }
{
    below(read_number(word), clients)
}

/// The number of a client.
fn below(number: Option<u64>, clients: u8) -> Result<u8, WordFault>
    ensures client { result ≡ below clients number }
    ensures below { IfOk result (λ client. client < clients) }
{
    match number {
        None => Err(WordFault::BadNumber),
        Some(number) if number < u64::from(clients) => Ok(number as u8),
        Some(_) => Err(WordFault::NoSuchClient),
    }
}
