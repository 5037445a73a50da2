//! Reads drills.
ghost use Rattle.std.specs.Prelude.{◌≡◌, ◌≢◌, ◌≤◌, true, [], length, IfOk, MatchResult, Ok, Err};
ghost use Rattle.std.specs.List.{list_all};
ghost use Rattle.drill_words.specs.Event.{event_fits};
ghost use Rattle.drill_words.specs.BareEvent.{with_orders};
ghost use Rattle.drill_words.specs.DrillFault.{at_line};
ghost use Rattle.drill_words.specs.Drill.{event_on, events_from, ReturnsRead, plain_of, read_of};

use crate::bare_event::BareEvent;
use crate::drill::Drill;
use crate::drill_fault::DrillFault;
use crate::event_line::read_event;
use crate::event_list::EventList;
use crate::kept_lines::KeptLines;
use crate::limits::{MAX_DRILL_BYTES, MAX_EVENTS};
use crate::match_line::read_match;
use crate::order_list::clear;
use crate::word_cursor::WordCursor;
use crate::word_fault::WordFault;
use game_orders::Orders;
use std::alloc::Global;

/// Reads a drill from at most [`MAX_DRILL_BYTES`] bytes.
///
/// Lines end at a line feed, and words are separated by spaces, tabs and carriage returns. Lines
/// without words and lines whose first word begins with `#` are passed over. The first other line
/// is `match CLIENTS LAG SEED`, and each further one is an event.
///
/// An `Err` is the first fault: that of the earliest line, and in it that of the first word from
/// the left. `BadWord` comes at a word that is unknown, missing or too many, and at one in a hash's
/// place that isn't 16 lower-case hexadecimal digits; it has line 0 where each line is passed over.
/// `BadNumber` comes at a word in the place of a number, a peer or a client that isn't one to ten
/// digits, and at a number out of its range; `NoSuchClient` at a peer or a client that isn't below
/// the number of clients; `TooManyOrders` at the word that begins an order after `MAX_ORDERS`
/// others; `TooManyEvents` at an event after [`MAX_EVENTS`] others, before its words. `NoMemory` is
/// out of memory, and may take the place of any answer.
#[tactic(auto, unfolding(crate::specs::Drill::read_of, crate::specs::Drill::drill_of))]
pub fn read_drill(alloc: Global, bytes: &[u8]) -> Result<Drill, DrillFault>
    requires { length bytes.now ≤ MAX_DRILL_BYTES }
    ensures { ReturnsRead plain_of result (read_of bytes.now) }
{
    let mut lines = KeptLines::of(bytes);
    let Some((number, mut cursor)) = lines.next() else {
        return Err(DrillFault::BadWord { line: 0 });
    };
    let head = read_match(&mut cursor).map_err(|fault| fault_at(fault, number))?;
    let events = read_events(alloc, head.clients, &mut lines)?;
    Ok(Drill {
        clients: head.clients,
        lag: head.lag,
        seed: head.seed,
        events,
    })
}

/// The events of all lines that are left.
#[tactic(auto, using(crate::proofs::DrillLemmas::event_steps))]
fn read_events(
    alloc: Global,
    clients: u8,
    lines: &mut KeptLines<'_>,
) -> Result<EventList, DrillFault>
    ensures events { ReturnsRead (λ events. events) result (events_from clients 0 lines.old) }
    ensures few { IfOk result (λ events. length events ≤ MAX_EVENTS) }
    ensures fit { IfOk result (λ events. list_all (event_fits clients) events ≡ true) }
{
    let mut events = EventList::new(alloc);
    let mut orders = Orders::empty();
    while let Some((number, cursor)) = lines.next() {
        clear(&mut orders);
        let before = events.len();
        let bare = read_event_on(clients, before, number, cursor, &mut orders)?;
        let Ok(()) = events.push_bare(bare, &orders) else {
            return Err(DrillFault::NoMemory);
        };
    }
    Ok(events)
}

/// The event of a line that follows so many others. The orders of a seal are put where there are
/// none.
#[tactic(auto, unfolding(crate::specs::Drill::event_on))]
fn read_event_on(
    clients: u8,
    before: usize,
    number: u32,
    mut cursor: WordCursor<'_>,
    orders: &mut Orders,
) -> Result<BareEvent, DrillFault>
    requires { orders.old ≡ [] }
    ensures line { MatchResult result (λ bare.
        event_on clients before (record { number = number; words = cursor.entry })
        ≡ Ok (with_orders orders.new bare))
        (λ fault. event_on clients before (record { number = number; words = cursor.entry })
        ≡ Err fault) }
    ensures room { IfOk result (λ _. before ≢ MAX_EVENTS) }
    ensures fits { IfOk result (λ bare.
        event_fits clients (with_orders orders.new bare) ≡ true) }
{
    if before == MAX_EVENTS as usize {
        return Err(DrillFault::TooManyEvents { line: number });
    }
    read_event(clients, &mut cursor, orders).map_err(|fault| fault_at(fault, number))
}

/// The fault of the line of this number, by that of its word.
pub fn fault_at(fault: WordFault, line: u32) -> DrillFault
    ensures { result ≡ at_line line fault }
{
    match fault {
        WordFault::BadWord => DrillFault::BadWord { line },
        WordFault::BadNumber => DrillFault::BadNumber { line },
        WordFault::NoSuchClient => DrillFault::NoSuchClient { line },
        WordFault::TooManyOrders => DrillFault::TooManyOrders { line },
    }
}
