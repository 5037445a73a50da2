//! Many plays of a column at one lock.
ghost use Rattle.std.specs.Prelude.{◌≡◌, ◌<◌, ◌≤◌, ◌∷◌, [], length, take, drop, slice_get, Some};
ghost use Rattle.std.specs.Prelude.{IfOk, OnErr};
ghost use Rattle.frame_core.specs.Column.{Column};
ghost use Rattle.frame_table.specs.Calls.{plan_of, view_of, IsPassOf, TakesPlays, Unchanged};

use crate::pass::Pass;
use crate::table::FrameTable;
use base::NoMemory;
use frame_core::{Columns, PlayList};
use game_orders::{Entry, Orders};
use std::alloc::Global;
use std::sync::Wait;

impl FrameTable {
    /// The plays of client `c`, which is below the number of clients, from frame `n` on: those that
    /// its column has at this call's own step, but at most so many. They are copied at one lock. No
    /// column changes. Afterwards the pass has seen, and knows, all of the column. Out of memory is
    /// its one error, and then nothing has changed for the pass.
    pub fn take_plays<R: Wait>(
        &self,
        rt: &R,
        alloc: Global,
        pass: &mut Pass,
        c: u8,
        n: u32,
        most: u32,
    ) -> Result<PlayList, NoMemory>
        requires pass { IsPassOf self.now pass.old }
        requires client { c < length (plan_of self.now) }
        ensures pass { IsPassOf self.now pass.new }
        ensures ok { IfOk result (TakesPlays c (view_of pass.old) (view_of pass.new) n most) }
        ensures err { OnErr result (Unchanged (view_of pass.old) (view_of pass.new)) }
    {
        let column = self.lock(rt, pass, c);
        match plays_from(alloc, &column, n, most) {
            Ok(plays) => {
                self.publish(pass, c, column);
                Ok(plays)
            }
            Err(error) => {
                self.give_back(pass, c, column);
                Err(error)
            }
        }
    }
}

/// The plays of one column from frame `n` on, at most so many.
fn plays_from(alloc: Global, column: &Columns, n: u32, most: u32) -> Result<PlayList, NoMemory>
    requires { (K : Column) × (column.now ≡ K ∷ []) }
    ensures { IfOk result (λ plays. (K : Column) → column.now ≡ K ∷ [] →
        plays ≡ take most (drop n K.plays)) }
{
    let mut plays = PlayList::new(alloc);
    let end = column.plays(0).min(n.saturating_add(most));
    for at in n..end {
        plays.push(orders_at(column, at))?;
    }
    Ok(plays)
}

/// The orders at frame `n` of one column, which has more plays than that.
fn orders_at(column: &Columns, n: u32) -> &Orders
    requires { (K : Column) × (column.now ≡ K ∷ []) × (n < length K.plays) }
    ensures { (K : Column) → column.now ≡ K ∷ [] → slice_get K.plays n ≡ Some result.now }
{
    match column.entry(0, n) {
        Some(Entry::Play(orders)) => orders,
        _ => unreachable!(),
    }
}
