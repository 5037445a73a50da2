ghost use Rattle.std.specs.Prelude.{◌≡◌};
ghost use Rattle.datagrams_command.specs.Script.{event_word};

/// The word that begins an event.
#[derive(Clone, Copy, Debug)]
pub(crate) enum EventWord {
    Offer,
    Send,
    Ack,
    Arrive,
}

/// The event that a word begins.
#[tactic(auto, unfolding(crate::specs::Script::event_word))]
pub(crate) fn event_word(word: &[u8]) -> Option<EventWord>
    ensures { result ≡ event_word word.now }
{
    if word == b"offer".as_slice() {
        Some(EventWord::Offer)
    } else if word == b"send".as_slice() {
        Some(EventWord::Send)
    } else if word == b"ack".as_slice() {
        Some(EventWord::Ack)
    } else if word == b"arrive".as_slice() {
        Some(EventWord::Arrive)
    } else {
        None
    }
}
