ghost use Rattle.std.specs.Prelude.{◌≡◌};
ghost use Rattle.drill_words.specs.EventLine.{event_word};

use crate::words::is_text;

/// The first word of an event line.
#[derive(Clone, Copy, Debug)]
pub(crate) enum EventWord {
    /// `seal`
    Seal,
    /// `up`
    Up,
    /// `down`
    Down,
    /// `tick`
    Tick,
    /// `drop`
    Drop,
    /// `report`
    Report,
    /// `forge`
    Forge,
    /// `bye`
    Bye,
}

/// The event that a word begins. None where the word is unknown.
#[tactic(auto, unfolding(crate::specs::EventLine::event_word))]
pub(crate) fn event_word(word: &[u8]) -> Option<EventWord>
    ensures { result ≡ event_word word.now }
{
    if is_text(word, b"seal".as_slice()) {
        Some(EventWord::Seal)
    } else if is_text(word, b"up".as_slice()) {
        Some(EventWord::Up)
    } else if is_text(word, b"down".as_slice()) {
        Some(EventWord::Down)
    } else if is_text(word, b"tick".as_slice()) {
        Some(EventWord::Tick)
    } else if is_text(word, b"drop".as_slice()) {
        Some(EventWord::Drop)
    } else if is_text(word, b"report".as_slice()) {
        Some(EventWord::Report)
    } else if is_text(word, b"forge".as_slice()) {
        Some(EventWord::Forge)
    } else if is_text(word, b"bye".as_slice()) {
        Some(EventWord::Bye)
    } else {
        None
    }
}
