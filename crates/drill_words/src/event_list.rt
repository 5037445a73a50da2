//! The list of a drill's events, in little memory.
ghost use Rattle.std.specs.Prelude.{◌≡◌, ◌+◌, ◌∷◌, ◌<◌, ◌≤◌, [], ◌++◌, true, length, take, drop};
ghost use Rattle.std.specs.Prelude.{slice_get, OnOk, OnErr};
ghost use Rattle.game_orders.specs.declared.limits.TheConstants.{MAX_ORDERS};
ghost use Rattle.drill_words.specs.EventView.{event_of};
ghost use Rattle.drill_words.specs.BareEvent.{with_orders};
ghost use Rattle.drill_words.specs.EventList.{event_from, is_stored, orders_in, head_of};

use crate::bare_event::BareEvent;
use crate::event::Event;
use crate::event_head::EventHead;
use crate::event_view::EventView;
use crate::seal_orders::SealOrders;
use base::NoMemory;
use game_orders::{Order, Orders};
use std::alloc::Global;
use std::marker::Model;

/// The events of a drill, in order. An event takes 16 bytes, and each order of a seal 8.
pub struct EventList {
    heads: Vec<EventHead>,
    pool: Vec<Order>,
}

// By hand, so that what drops one needs no proof of how its parts are dropped.
impl Drop for EventList {
    fn drop(self) {
        let Self { heads: _, pool: _ } = self;
    }
}

impl Model for EventList {
    ghost use Rattle.std.specs.Prelude.{◌≡◌, true, List, length};
    ghost use Rattle.std.specs.List.{list_all};
    ghost use Rattle.drill_words.specs.declared.event.Event.{Event};
    ghost use Rattle.drill_words.specs.EventList.{stored_events, is_stored};

    ghost Value = { List Event };

    ghost view = { λ list. stored_events list.pool.items list.heads.items };

    ghost invariant = { λ list.
        list_all (is_stored (length list.pool.items)) list.heads.items ≡ true };
}

impl EventList {
    /// No events.
    pub fn new(alloc: Global) -> EventList
        ensures { result ≡ [] }
    {
        EventList {
            heads: Vec::new(alloc),
            pool: Vec::new(alloc),
        }
    }

    /// Adds an event last. It fails only where it is out of memory, and then nothing changes.
    pub fn push(&mut self, event: Event) -> Result<(), NoMemory>
        ensures ok { OnOk result (self.new ≡ self.old ++ event ∷ []) }
        ensures err { OnErr result (self.new ≡ self.old) }
    {
        let bare = bare_of(&event);
        match event {
            Event::Seal { orders, .. } => self.push_bare(bare, &orders),
            _ => self.push_bare(bare, &Orders::empty()),
        }
    }

    /// Adds an event last, as `push` does, whose orders are lent.
    pub(crate) fn push_bare(&mut self, bare: BareEvent, orders: &Orders) -> Result<(), NoMemory>
        ensures ok { OnOk result (self.new ≡ self.old ++ with_orders orders.now bare ∷ []) }
        ensures err { OnErr result (self.new ≡ self.old) }
    {
        let first = self.pool.len();
        self.heads.reserve(1)?;
        add_orders(&mut self.pool, bare, orders)?;
        self.heads.push_reserved(head_of(first, bare, orders));
        Ok(())
    }

    /// The number of events.
    pub fn len(&self) -> usize
        ensures { result ≡ length self.now }
    {
        self.heads.len()
    }

    /// The i-th event, from 0, with its orders lent. `i` is below the number of events.
    pub fn get(&self, i: usize) -> EventView<'_>
        requires { i < length self.now }
        ensures { slice_get self.now i ≡ Some (event_of result) }
    {
        view_from(self.pool.as_slice(), self.heads[i])
    }
}

/// The event without its orders.
fn bare_of(event: &Event) -> BareEvent
    ensures { with_orders (orders_in event.now) result ≡ event.now }
{
    match *event {
        Event::Seal { peer, .. } => BareEvent::Seal { peer },
        Event::Up { packet } => BareEvent::Up { packet },
        Event::Down {
            peer,
            client,
            frame,
        } => BareEvent::Down {
            peer,
            client,
            frame,
        },
        Event::Tick { peer } => BareEvent::Tick { peer },
        Event::TickServer => BareEvent::TickServer,
        Event::DropClient { client } => BareEvent::DropClient { client },
        Event::Report { peer } => BareEvent::Report { peer },
        Event::Forge {
            client,
            frame,
            hash,
        } => BareEvent::Forge {
            client,
            frame,
            hash,
        },
        Event::Bye { peer } => BareEvent::Bye { peer },
    }
}

/// Adds these orders where the event is a seal. It fails only where it is out of memory, and then
/// nothing changes.
fn add_orders(pool: &mut Vec<Order>, bare: BareEvent, orders: &Orders) -> Result<(), NoMemory>
    ensures ok { OnOk result (pool.new.items
        ≡ pool.old.items ++ orders_in (with_orders orders.now bare)) }
    ensures err { OnErr result (pool.new.items ≡ pool.old.items) }
{
    match bare {
        BareEvent::Seal { .. } => pool.extend_from_slice(orders.as_slice()),
        _ => Ok(()),
    }
}

/// The head of an event with these orders, which stand in the pool from `first` on.
fn head_of(first: usize, bare: BareEvent, orders: &Orders) -> EventHead
    ensures head { result ≡ head_of first (with_orders orders.now bare) }
    ensures few { length (orders_in (with_orders orders.now bare)) ≤ MAX_ORDERS }
{
    match bare {
        BareEvent::Seal { peer } => EventHead::Seal {
            peer,
            count: orders.len() as u8,
            first,
        },
        BareEvent::Up { packet } => EventHead::Up { packet },
        BareEvent::Down {
            peer,
            client,
            frame,
        } => EventHead::Down {
            peer,
            client,
            frame,
        },
        BareEvent::Tick { peer } => EventHead::Tick { peer },
        BareEvent::TickServer => EventHead::TickServer,
        BareEvent::DropClient { client } => EventHead::DropClient { client },
        BareEvent::Report { peer } => EventHead::Report { peer },
        BareEvent::Forge {
            client,
            frame,
            hash,
        } => EventHead::Forge {
            client,
            frame,
            hash,
        },
        BareEvent::Bye { peer } => EventHead::Bye { peer },
    }
}

/// The event of a head whose part lies in the pool.
fn view_from(pool: &[Order], head: EventHead) -> EventView<'_>
    requires { is_stored (length pool.now) head ≡ true }
    ensures { event_of result ≡ event_from pool.now head }
{
    match head {
        EventHead::Seal { peer, count, first } => EventView::Seal {
            peer,
            orders: pool_part(pool, first, usize::from(count)),
        },
        EventHead::Up { packet } => EventView::Up { packet },
        EventHead::Down {
            peer,
            client,
            frame,
        } => EventView::Down {
            peer,
            client,
            frame,
        },
        EventHead::Tick { peer } => EventView::Tick { peer },
        EventHead::TickServer => EventView::TickServer,
        EventHead::DropClient { client } => EventView::DropClient { client },
        EventHead::Report { peer } => EventView::Report { peer },
        EventHead::Forge {
            client,
            frame,
            hash,
        } => EventView::Forge {
            client,
            frame,
            hash,
        },
        EventHead::Bye { peer } => EventView::Bye { peer },
    }
}

/// So many orders of the pool from `first` on.
fn pool_part(pool: &[Order], first: usize, count: usize) -> SealOrders<'_>
    requires within { first + count ≤ length pool.now }
    requires few { count ≤ MAX_ORDERS }
    ensures { result ≡ take count (drop first pool.now) }
{
    let (_, from_first) = pool.split_at(first);
    let (part, _) = from_first.split_at(count);
    SealOrders::of(part)
}
