ghost use Rattle.std.specs.Prelude.{◌≡◌, ◌+◌, ◌<◌, ◌≤◌, ◌↔◌, [], ◌∷◌, ◌++◌, length, take, IsTrue, IfNone};
ghost use Rattle.std.specs.Prelude.{slice_get};
ghost use Rattle.std.specs.Option.{option_copied};
ghost use Rattle.game_orders.specs.declared.entry.Entry.TheVariants.{Play};

use crate::entry::Entry;
use crate::limits::{MAX_CLIENTS, MAX_ORDERS, PER_CLIENT_ROOM};
use crate::order::Order;
use crate::orders::Orders;
use arrayvec::ArrayVec;
use std::marker::Model;

/// What a world is stepped by: one entry for each client, by rising number, at most
/// [`MAX_CLIENTS`]. In it a Leave means that the client has departed, at this frame or before it.
///
/// A frame that was cleared is filled again in place, so one frame serves a whole match.
#[derive(Debug)]
pub struct Frame {
    // The first `len` are the frame's. Those after them are left over, for their room.
    held: ArrayVec<Entry, PER_CLIENT_ROOM>,
    len: usize,
}

// By hand, so that what drops one needs no proof of how its parts are dropped.
impl Drop for Frame {
    fn drop(self) {
        let Self { held: _, len: _ } = self;
    }
}

impl Model for Frame {
    ghost use Rattle.std.specs.Prelude.{List, ◌≤◌, length, take};
    ghost use Rattle.game_orders.specs.declared.entry.Entry.{Entry};
    ghost use Rattle.game_orders.specs.declared.limits.TheConstants.{MAX_CLIENTS};

    ghost Value = { List Entry };

    ghost view = { λ frame. take frame.len frame.held.items };

    ghost invariant = { λ frame. (frame.len ≤ length frame.held.items)
        × (length frame.held.items ≤ MAX_CLIENTS) };
}

impl Frame {
    /// A frame without entries.
    pub fn empty() -> Frame
        ensures { result ≡ [] }
    {
        Frame {
            held: ArrayVec::new(),
            len: 0,
        }
    }

    /// Takes all entries out. Their room is kept.
    pub fn clear(&mut self)
        ensures { self.new ≡ [] }
    {
        self.len = 0;
    }

    /// Adds the entry of the next client. There are fewer than [`MAX_CLIENTS`] entries before.
    pub fn push(&mut self, e: Entry)
        requires { length self.old < MAX_CLIENTS }
        ensures { self.new ≡ self.old ++ e ∷ [] }
    {
        let at = self.len;
        make_room(&mut self.held, at);
        self.held.as_mut_slice()[at] = e;
        self.len = at + 1;
    }

    /// Adds a play of the next client, of at most [`MAX_ORDERS`] orders, which are copied in place.
    /// There are fewer than [`MAX_CLIENTS`] entries before.
    pub fn push_play(&mut self, orders: &[Order])
        requires room { length self.old < MAX_CLIENTS }
        requires orders { length orders.now ≤ MAX_ORDERS }
        ensures { self.new ≡ self.old ++ Play orders.now ∷ [] }
    {
        let at = self.len;
        make_room(&mut self.held, at);
        set_play(&mut self.held.as_mut_slice()[at], orders);
        self.len = at + 1;
    }

    /// The number of entries, at most [`MAX_CLIENTS`].
    pub fn len(&self) -> usize
        ensures value { result ≡ length self.now }
        ensures limit { result ≤ MAX_CLIENTS }
    {
        let _held = &self.held;
        self.len
    }

    /// True where there is none.
    pub fn is_empty(&self) -> bool
        ensures { IsTrue result ↔ (self.now ≡ []) }
    {
        self.len() == 0
    }

    /// The entry of client `i`. None exactly where `i` is the length or more.
    pub fn get(&self, i: usize) -> Option<&Entry>
        ensures value { option_copied result ≡ slice_get self.now i }
        ensures past { IfNone result (length self.now ≤ i) }
    {
        let (own, _left_over) = self.held.as_slice().split_at(self.len);
        own.get(i)
    }
}

/// Sees to it that an entry stands at a place up to the end of these. The entries before it stay.
fn make_room(held: &mut ArrayVec<Entry, PER_CLIENT_ROOM>, at: usize)
    requires within { at ≤ length held.old.items }
    requires room { at < MAX_CLIENTS }
    requires limit { length held.old.items ≤ MAX_CLIENTS }
    ensures stands { at < length held.new.items }
    ensures limit { length held.new.items ≤ MAX_CLIENTS }
    ensures before { take at held.new.items ≡ take at held.old.items }
{
    if at == held.len() {
        held.push(Entry::Leave);
    }
}

/// Makes of an entry a play of these orders, in its place.
fn set_play(entry: &mut Entry, orders: &[Order])
    requires { length orders.now ≤ MAX_ORDERS }
    ensures { entry.new ≡ Play orders.now }
{
    if let Entry::Play(own) = entry {
        own.replace(orders);
    } else {
        let mut own = Orders::empty();
        own.replace(orders);
        *entry = Entry::Play(own);
    }
}
