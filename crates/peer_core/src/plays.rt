ghost use Rattle.std.specs.Prelude.{◌≡◌, ◌+◌, ◌≤◌, ◌∷◌, [], None, length, slice_get};
ghost use Rattle.std.specs.Prelude.{IfSome, IfNone, OnOk, OnErr};
ghost use Rattle.std.specs.Option.{option_copied};
ghost use Rattle.std.specs.Vec.{vec_len, vec_capacity};
ghost use Rattle.std.specs.BTreeMap.{btree_map_len, insert_entry};
ghost use Rattle.std.specs.Ordering.{nat_cmp};
ghost use Rattle.peer_core.specs.Entries.{stored_plays, IsAbove, IsFrom, IsElsewhere};
ghost use Rattle.peer_core.specs.Entries.{play_at, play_after, with_play};

use crate::stored_orders::StoredOrders;
use base::NoMemory;
use game_orders::{MAX_FRAMES, Orders};
use std::alloc::Global;
use std::collections::BTreeMap;
use std::marker::Model;

/// The plays of one client that reached a peer. Those from frame 0 on without a gap stand in a
/// column, those after the gap in a map by their frames; once the gap closes they move into the
/// column. So a play costs little in whatever order they come.
#[derive(Drop)]
pub(crate) struct Plays {
    column: Vec<StoredOrders>,
    early: BTreeMap<u32, StoredOrders>,
}

impl Model for Plays {
    ghost use Rattle.std.specs.Prelude.{List, length};
    ghost use Rattle.peer_core.specs.Entries.{KeptPlay, stored_plays, IsAbove};

    ghost Value = { List KeptPlay };

    ghost view = { λ plays. stored_plays plays.column.items plays.early.entries };

    ghost invariant = { λ plays. IsAbove (length plays.column.items) plays.early.entries };
}

impl Plays {
    /// No plays.
    pub(crate) fn new(alloc: Global) -> Plays
        ensures { result ≡ [] }
    {
        Plays {
            column: Vec::new(alloc),
            early: BTreeMap::new(alloc),
        }
    }

    /// The orders of the play at frame `n`.
    pub(crate) fn get(&self, n: u32) -> Option<&StoredOrders>
        ensures { option_copied result ≡ play_at self.now n }
    {
        if (n as usize) < self.column.len() {
            orders_at(self.column.as_slice(), n as usize)
        } else {
            self.early.get(&n)
        }
    }

    /// The frame of the first play after frame `n`, which is at most `MAX_FRAMES`.
    pub(crate) fn first_after(&self, n: u32) -> Option<u32>
        requires { n ≤ MAX_FRAMES }
        ensures { result ≡ play_after self.now n }
    {
        let next = n + 1;
        if (next as usize) < self.column.len() {
            return Some(next);
        }
        let (frame, _) = self.early.range(next..).next()?;
        Some(*frame)
    }

    /// Keeps a play at frame `n`, at which none is. Out of memory is its one error, and then
    /// nothing has changed.
    pub(crate) fn keep(&mut self, n: u32, orders: &Orders) -> Result<(), NoMemory>
        requires { play_at self.old n ≡ None }
        ensures kept { OnOk result (self.new
            ≡ with_play (record { frame = n; orders = orders.now }) self.old) }
        ensures err { OnErr result (self.new ≡ self.old) }
    {
        let stored = StoredOrders::create(*self.column.allocator(), orders)?;
        if (n as usize) == self.column.len() {
            self.column.reserve(self.early.len() + 1)?;
            self.column.push_reserved(stored);
            close_gap(&mut self.column, &mut self.early);
        } else {
            add_early(&mut self.early, n, stored)?;
        }
        Ok(())
    }
}

/// The orders at an index of a column.
fn orders_at(column: &[StoredOrders], n: usize) -> Option<&StoredOrders>
    ensures { option_copied result ≡ slice_get column.now n }
{
    column.get(n)
}

/// Adds an early play. Out of memory is its one error, and then nothing has changed.
fn add_early(
    early: &mut BTreeMap<u32, StoredOrders>,
    n: u32,
    orders: StoredOrders,
) -> Result<(), NoMemory>
    ensures added { OnOk result (early.new.entries
        ≡ insert_entry nat_cmp early.old.entries n orders) }
    ensures err { OnErr result (early.new.entries ≡ early.old.entries) }
{
    let _none = early.insert(n, orders)?;
    Ok(())
}

/// Moves early plays into the column, as long as the first of them is the column's next one.
fn close_gap(column: &mut Vec<StoredOrders>, early: &mut BTreeMap<u32, StoredOrders>)
    requires room { vec_len column.old + btree_map_len early.old ≤ vec_capacity column.old }
    requires from { IsFrom (length column.old.items) early.old.entries }
    ensures plays { stored_plays column.new.items early.new.entries
        ≡ stored_plays column.old.items early.old.entries }
    ensures above { IsAbove (length column.new.items) early.new.entries }
{
    while let Some(orders) = take_at(early, column.len()) {
        column.push_reserved(orders);
    }
}

/// Takes the first early play out, if it stands at this frame.
fn take_at(early: &mut BTreeMap<u32, StoredOrders>, n: usize) -> Option<StoredOrders>
    ensures taken { IfSome result (λ orders. early.old.entries ≡ (n, orders) ∷ early.new.entries) }
    ensures none { IfNone result (early.new.entries ≡ early.old.entries) }
    ensures other { IfNone result (IsElsewhere n early.old.entries) }
{
    let (frame, _) = early.first_key_value()?;
    if (*frame as usize) != n {
        return None;
    }
    let (_, orders) = early.pop_first()?;
    Some(orders)
}
