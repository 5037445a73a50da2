//! Reads the line of an event.
ghost use Rattle.std.specs.Prelude.{◌≡◌, true, [], IfOk, MatchResult, Ok, Err};
ghost use Rattle.drill_words.specs.Event.{event_fits};
ghost use Rattle.drill_words.specs.BareEvent.{with_orders};
ghost use Rattle.drill_words.specs.Read.{Takes};
ghost use Rattle.drill_words.specs.EventLine.{event_word_at, event_at, event_of, ticker_at};

use crate::bare_event::BareEvent;
use crate::event_word::{EventWord, event_word};
use crate::order_list::take_orders_into;
use crate::word_cursor::{WordCursor, client_of};
use crate::word_fault::WordFault;
use crate::words::is_text;
use game_orders::Orders;

/// The event that the words of a line write, in a match of so many clients. The orders of a seal
/// are put where there are none.
#[tactic(auto, unfolding(crate::specs::EventLine::event_of))]
pub(crate) fn read_event(
    clients: u8,
    cursor: &mut WordCursor<'_>,
    orders: &mut Orders,
) -> Result<BareEvent, WordFault>
    requires { orders.old ≡ [] }
    ensures line { MatchResult result (λ bare. event_of clients cursor.old
        ≡ Ok (with_orders orders.new bare))
        (λ fault. event_of clients cursor.old ≡ Err fault) }
    ensures fits { IfOk result (λ bare.
        event_fits clients (with_orders orders.new bare) ≡ true) }
{
    let word = take_event_word(cursor)?;
    let bare = take_event(clients, word, cursor, orders)?;
    cursor.end()?;
    Ok(bare)
}

/// Takes the word that begins an event.
#[tactic(auto, unfolding(crate::specs::EventLine::event_word_at))]
fn take_event_word(cursor: &mut WordCursor<'_>) -> Result<EventWord, WordFault>
    ensures { Takes result cursor.new (event_word_at cursor.old) }
{
    event_word(cursor.required()?).ok_or(WordFault::BadWord)
}

/// Takes what follows the first word of an event.
#[tactic(auto, unfolding(crate::specs::EventLine::event_at))]
fn take_event(
    clients: u8,
    word: EventWord,
    cursor: &mut WordCursor<'_>,
    orders: &mut Orders,
) -> Result<BareEvent, WordFault>
    requires { orders.old ≡ [] }
    ensures taken { MatchResult result (λ bare. event_at clients word cursor.old
        ≡ Ok (with_orders orders.new bare, cursor.new))
        (λ fault. event_at clients word cursor.old ≡ Err fault) }
    ensures fits { IfOk result (λ bare.
        event_fits clients (with_orders orders.new bare) ≡ true) }
{
    match word {
        EventWord::Seal => {
            let peer = cursor.client(clients)?;
            take_orders_into(cursor, orders)?;
            Ok(BareEvent::Seal { peer })
        }
        EventWord::Up => {
            let packet = cursor.number(0, u32::MAX)?;
            Ok(BareEvent::Up { packet })
        }
        EventWord::Down => {
            let peer = cursor.client(clients)?;
            let client = cursor.client(clients)?;
            let frame = cursor.number(0, u32::MAX)?;
            Ok(BareEvent::Down {
                peer,
                client,
                frame,
            })
        }
        EventWord::Tick => take_ticker(clients, cursor),
        EventWord::Drop => {
            let client = cursor.client(clients)?;
            Ok(BareEvent::DropClient { client })
        }
        EventWord::Report => {
            let peer = cursor.client(clients)?;
            Ok(BareEvent::Report { peer })
        }
        EventWord::Forge => {
            let client = cursor.client(clients)?;
            let frame = cursor.number(0, u32::MAX)?;
            let hash = cursor.hash()?;
            Ok(BareEvent::Forge {
                client,
                frame,
                hash,
            })
        }
        EventWord::Bye => {
            let peer = cursor.client(clients)?;
            Ok(BareEvent::Bye { peer })
        }
    }
}

/// Takes a peer that ticks, or the word `server`.
#[tactic(auto, unfolding(crate::specs::EventLine::ticker_at))]
fn take_ticker(clients: u8, cursor: &mut WordCursor<'_>) -> Result<BareEvent, WordFault>
    ensures taken { MatchResult result (λ bare. ticker_at clients cursor.old
        ≡ Ok (with_orders [] bare, cursor.new))
        (λ fault. ticker_at clients cursor.old ≡ Err fault) }
    ensures fits { IfOk result (λ bare. event_fits clients (with_orders [] bare) ≡ true) }
{
    let word = cursor.required()?;
    if is_text(word, b"server".as_slice()) {
        return Ok(BareEvent::TickServer);
    }
    let peer = client_of(word, clients)?;
    Ok(BareEvent::Tick { peer })
}
