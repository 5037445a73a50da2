//! Reads the lines of a script.
ghost use Rattle.std.specs.Prelude.{◌≡◌, ◌≢◌, IfOk, MatchResult, Ok, Err};
ghost use Rattle.drill_words.specs.Read.{Takes};
ghost use Rattle.datagram_link.specs.Grams.{IsPayload};
ghost use Rattle.datagram_schedule.specs.Exchange.{FitsEvent};
ghost use Rattle.datagrams_command.specs.Script.{event_word_at, payload_at, event_at, event_of};
ghost use Rattle.datagrams_command.specs.Script.{event_on};

use crate::event_word::{EventWord, event_word};
use datagram_link::MAX_PAYLOAD;
use datagram_schedule::{Event, PayloadView};
use drill_words::{DrillFault, MAX_EVENTS, WordCursor, WordFault, fault_at};

/// Takes the word that begins an event.
#[tactic(auto, unfolding(crate::specs::Script::event_word_at))]
fn take_event_word(cursor: &mut WordCursor<'_>) -> Result<EventWord, WordFault>
    ensures { Takes result cursor.new (event_word_at cursor.old) }
{
    event_word(cursor.required()?).ok_or(WordFault::BadWord)
}

/// Takes a payload: a word of at most [`MAX_PAYLOAD`] bytes.
#[tactic(auto, unfolding(crate::specs::Script::payload_at))]
fn take_payload<'a>(cursor: &mut WordCursor<'a>) -> Result<PayloadView<'a>, WordFault>
    ensures taken { Takes result cursor.new (payload_at cursor.old) }
    ensures fits { IfOk result (λ payload. IsPayload payload) }
{
    let word = cursor.required()?;
    if word.is_empty() || word.len() > usize::from(MAX_PAYLOAD) {
        return Err(WordFault::BadWord);
    }
    Ok(PayloadView::of(word))
}

/// Takes what follows the first word of an event.
#[tactic(auto, unfolding(crate::specs::Script::event_at))]
fn take_event<'a>(word: EventWord, cursor: &mut WordCursor<'a>) -> Result<Event<'a>, WordFault>
    ensures taken { Takes result cursor.new (event_at word cursor.old) }
    ensures fits { IfOk result (λ event. FitsEvent event) }
{
    match word {
        EventWord::Offer => {
            let payload = take_payload(cursor)?;
            Ok(Event::Offer { payload })
        }
        EventWord::Send => {
            let place = cursor.number(0, u32::MAX)?;
            Ok(Event::Send { place })
        }
        EventWord::Ack => Ok(Event::Acknowledge),
        EventWord::Arrive => {
            let gram = cursor.number(0, u32::MAX)?;
            Ok(Event::Arrive { gram })
        }
    }
}

/// The event that the words of a line write.
#[tactic(auto, unfolding(crate::specs::Script::event_of))]
fn read_event<'a>(cursor: &mut WordCursor<'a>) -> Result<Event<'a>, WordFault>
    ensures line { result ≡ event_of cursor.old }
    ensures fits { IfOk result (λ event. FitsEvent event) }
{
    let word = take_event_word(cursor)?;
    let event = take_event(word, cursor)?;
    cursor.end()?;
    Ok(event)
}

/// The event of a line that follows so many others.
#[tactic(auto, unfolding(crate::specs::Script::event_on))]
pub(crate) fn read_event_on<'a>(
    before: u32,
    number: u32,
    mut cursor: WordCursor<'a>,
) -> Result<Event<'a>, DrillFault>
    ensures line { result ≡ event_on before (record { number = number; words = cursor.entry }) }
    ensures room { IfOk result (λ _. before ≢ MAX_EVENTS) }
    ensures fits { IfOk result (λ event. FitsEvent event) }
{
    if before == MAX_EVENTS {
        return Err(DrillFault::TooManyEvents { line: number });
    }
    read_event(&mut cursor).map_err(|fault| fault_at(fault, number))
}
