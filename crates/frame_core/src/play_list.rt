//! The plays of one client, in little memory.
ghost use Rattle.std.specs.Prelude.{◌≡◌, ◌+◌, ◌∷◌, ◌<◌, ◌≤◌, [], ◌++◌, true, length, take, drop};
ghost use Rattle.std.specs.Prelude.{Some, slice_get, IfOk, OnOk, OnErr};
ghost use Rattle.game_orders.specs.declared.limits.TheConstants.{MAX_ORDERS};
ghost use Rattle.frame_core.specs.PlayList.{part_in, is_stored};

use crate::play_part::PlayPart;
use base::NoMemory;
use game_orders::{Order, Orders};
use std::alloc::{AllocError, Global};
use std::marker::Model;

/// The orders of one client, frame by frame from 0. A play takes 8 bytes, and each of its orders
/// 12.
pub struct PlayList {
    parts: Vec<PlayPart>,
    pool: Vec<Order>,
}

// By hand, so that what drops one needs no proof of how its parts are dropped.
impl Drop for PlayList {
    fn drop(self) {
        let Self { parts: _, pool: _ } = self;
    }
}

impl Model for PlayList {
    ghost use Rattle.std.specs.Prelude.{◌≡◌, true, List, length};
    ghost use Rattle.std.specs.List.{list_all};
    ghost use Rattle.game_orders.specs.declared.order.Order.{Order};
    ghost use Rattle.frame_core.specs.PlayList.{stored_plays, is_stored};

    ghost Value = { List (List Order) };

    ghost view = { λ list. stored_plays list.pool.items list.parts.items };

    ghost invariant = { λ list.
        list_all (is_stored (length list.pool.items)) list.parts.items ≡ true };
}

impl PlayList {
    /// No plays.
    pub fn new(alloc: Global) -> PlayList
        ensures { result ≡ [] }
    {
        PlayList {
            parts: Vec::new(alloc),
            pool: Vec::new(alloc),
        }
    }

    /// Adds a play last. It fails only where it is out of memory, and then nothing changes.
    pub fn push(&mut self, orders: &Orders) -> Result<(), NoMemory>
        ensures ok { OnOk result (self.new ≡ self.old ++ orders.now ∷ []) }
        ensures err { OnErr result (self.new ≡ self.old) }
    {
        let Ok(first) = u32::try_from(self.pool.len()) else {
            return Err(AllocError);
        };
        self.parts.reserve(1)?;
        self.pool.extend_from_slice(orders.as_slice())?;
        self.parts.push_reserved(PlayPart {
            first,
            count: orders.len() as u8,
        });
        Ok(())
    }

    /// The number of plays.
    pub fn len(&self) -> usize
        ensures { result ≡ length self.now }
    {
        self.parts.len()
    }

    /// The orders of the n-th play, from 0, which is below the number of plays.
    pub fn get(&self, n: usize) -> Orders
        requires { n < length self.now }
        ensures { slice_get self.now n ≡ Some result }
    {
        orders_in(self.pool.as_slice(), self.parts[n])
    }

    /// The orders of the n-th play where they stand, at most [`MAX_ORDERS`](game_orders::MAX_ORDERS).
    /// The play is below the number of plays.
    pub fn play(&self, n: usize) -> &[Order]
        requires { n < length self.now }
        ensures value { slice_get self.now n ≡ Some result.now }
        ensures limit { length result.now ≤ MAX_ORDERS }
    {
        stored_play(self.pool.as_slice(), self.parts[n])
    }

    /// The same plays once more. It fails only where it is out of memory.
    pub fn copy(&self, alloc: Global) -> Result<PlayList, NoMemory>
        ensures { IfOk result (λ copy. copy ≡ self.now) }
    {
        let parts = Vec::from_slice(alloc, self.parts.as_slice())?;
        let pool = Vec::from_slice(alloc, self.pool.as_slice())?;
        Ok(PlayList { parts, pool })
    }
}

/// The orders of a part of the pool, of their own.
fn orders_in(pool: &[Order], part: PlayPart) -> Orders
    requires { is_stored (length pool.now) part ≡ true }
    ensures { result ≡ part_in pool.now part }
{
    orders_of(stored_play(pool, part))
}

/// The orders of a part of the pool, where they stand.
fn stored_play(pool: &[Order], part: PlayPart) -> &[Order]
    requires { is_stored (length pool.now) part ≡ true }
    ensures value { result.now ≡ part_in pool.now part }
    ensures limit { length result.now ≤ MAX_ORDERS }
{
    pool_part(pool, part.first as usize, usize::from(part.count))
}

/// So many orders of the pool from `first` on.
fn pool_part(pool: &[Order], first: usize, count: usize) -> &[Order]
    requires { first + count ≤ length pool.now }
    ensures { result.now ≡ take count (drop first pool.now) }
{
    let (_, from_first) = pool.split_at(first);
    let (part, _) = from_first.split_at(count);
    part
}

/// Orders of their own.
pub(crate) fn orders_of(part: &[Order]) -> Orders
    requires { length part.now ≤ MAX_ORDERS }
    ensures { result ≡ part.now }
{
    let mut orders = Orders::empty();
    orders.replace(part);
    orders
}
