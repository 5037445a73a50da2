ghost use Rattle.std.specs.Prelude.{◌≡◌, ◌≤◌, [], ◌∷◌, ◌++◌, true, length, nat_le, slice_get};
ghost use Rattle.std.specs.Prelude.{IfOk, OnOk, OnErr};
ghost use Rattle.std.specs.Option.{option_copied, option_map};
ghost use Rattle.game_orders.specs.declared.entry.Entry.TheVariants.{Play};
ghost use Rattle.game_orders.specs.declared.limits.TheConstants.{MAX_ORDERS};
ghost use Rattle.frame_core.specs.StoredPlays.{play_at, ArePlays, Keeps};

use crate::play_list::orders_of;
use base::NoMemory;
use game_orders::{Entry, Order, Orders};
use std::alloc::{AllocError, Global};
use std::marker::Model;

/// One client's plays, each to be lent as an entry where it stands. Most plays are without orders:
/// one entry stands for all of them, and each takes a place of 4 bytes.
#[derive(Drop)]
pub(crate) struct StoredPlays {
    // 0 for a play without orders, else one more than its index among the others
    places: Vec<u32>,
    full: Vec<Entry>,
    empty: Entry,
}

impl Model for StoredPlays {
    ghost use Rattle.std.specs.Prelude.{List, [], ◌≡◌, true, length};
    ghost use Rattle.std.specs.List.{list_all};
    ghost use Rattle.game_orders.specs.declared.order.Order.{Order};
    ghost use Rattle.game_orders.specs.declared.entry.Entry.TheVariants.{Play};
    ghost use Rattle.frame_core.specs.StoredPlays.{plays_at, is_place, ArePlays};

    ghost Value = { List (List Order) };

    ghost view = { λ plays. plays_at plays.full.items plays.places.items };

    ghost invariant = { λ plays.
        (list_all (is_place (length plays.full.items)) plays.places.items ≡ true)
        × ArePlays plays.full.items × (plays.empty ≡ Play []) };
}

impl StoredPlays {
    /// No plays.
    pub(crate) fn new(alloc: Global) -> StoredPlays
        ensures { result ≡ [] }
    {
        StoredPlays {
            places: Vec::new(alloc),
            full: Vec::new(alloc),
            empty: Entry::Play(Orders::empty()),
        }
    }

    /// The number of plays.
    pub(crate) fn len(&self) -> usize
        ensures { result ≡ length self.now }
    {
        self.places.len()
    }

    /// The n-th play, from 0.
    pub(crate) fn get(&self, n: usize) -> Option<&Entry>
        ensures { option_copied result ≡ option_map Play (slice_get self.now n) }
    {
        let place = *self.places.get(n)?;
        Some(lent(self.full.as_slice(), &self.empty, place))
    }

    /// Adds a play last. Out of memory is its one error, and then nothing has changed.
    pub(crate) fn push(&mut self, orders: &[Order]) -> Result<(), NoMemory>
        requires { length orders.now ≤ MAX_ORDERS }
        ensures added { OnOk result (self.new ≡ self.old ++ orders.now ∷ []) }
        ensures err { OnErr result (self.new ≡ self.old) }
    {
        self.places.reserve(1)?;
        let place = keep(&mut self.full, orders)?;
        self.places.push_reserved(place);
        Ok(())
    }
}

/// The play at a place.
fn lent<'a>(full: &'a [Entry], empty: &'a Entry, place: u32) -> &'a Entry
    requires there { nat_le place (length full.now) ≡ true }
    requires plays { ArePlays full.now }
    requires empty { empty.now ≡ Play [] }
    ensures { result.now ≡ Play (play_at full.now place) }
{
    if place == 0 {
        empty
    } else {
        &full[place as usize - 1]
    }
}

/// Keeps a play, if it has orders, and gives its place.
fn keep(full: &mut Vec<Entry>, orders: &[Order]) -> Result<u32, NoMemory>
    requires { length orders.now ≤ MAX_ORDERS }
    ensures kept { IfOk result (Keeps full.old.items full.new.items orders.now) }
    ensures err { OnErr result (full.new.items ≡ full.old.items) }
{
    if orders.is_empty() {
        return Ok(0);
    }
    let Ok(place) = u32::try_from(full.len() + 1) else {
        return Err(AllocError);
    };
    full.push(Entry::Play(orders_of(orders)))?;
    Ok(place)
}
