//! The calls that take a column's lock.
ghost use Rattle.std.specs.Prelude.{◌≡◌, ◌<◌, ◌≤◌, length, IfOk, OnErr};
ghost use Rattle.std.specs.Option.{option_copied};
ghost use Rattle.frame_core.specs.Ready.{or_leave};
ghost use Rattle.game_orders.specs.declared.entry.Entry.TheVariants.{Play};
ghost use Rattle.game_orders.specs.declared.limits.TheConstants.{MAX_ORDERS};
ghost use Rattle.frame_table.specs.Calls.{plan_of, view_of, standing, IsPassOf, HasSeen, MayPut};
ghost use Rattle.frame_table.specs.Calls.{MayLeaveBy, PutsSo, LeavesSo, TakesSo, Unchanged};

use crate::pass::Pass;
use crate::table::FrameTable;
use base::NoMemory;
use frame_core::{Columns, Leaving, Put};
use game_orders::{Entry, Order, Orders};
use std::sync::Wait;

impl FrameTable {
    /// Puts an entry of client `c`, which is below the number of clients, at frame `n`. The answer
    /// is that of `Columns::put` on the column as it is at this call's own step, and afterwards the
    /// pass has seen, and knows, all of the column. A play is put into a free column only by the
    /// pass that feeds it, or by one that has seen its frame; into a planned column goes what is
    /// planned at `n`, and the departure at the plan's end. Out of memory is its one error, and
    /// then nothing has changed.
    pub fn put<R: Wait>(
        &self,
        rt: &R,
        pass: &mut Pass,
        c: u8,
        n: u32,
        e: Entry,
    ) -> Result<Put, NoMemory>
        requires pass { IsPassOf self.now pass.old }
        requires client { c < length (plan_of self.now) }
        requires may { MayPut (standing pass.old c) n e }
        ensures pass { IsPassOf self.now pass.new }
        ensures ok { IfOk result (PutsSo c (view_of pass.old) (view_of pass.new) n e) }
        ensures err { OnErr result (Unchanged (view_of pass.old) (view_of pass.new)) }
    {
        let mut column = self.lock(rt, pass, c);
        match column.put(0, n, e) {
            Ok(answer) => {
                self.publish(pass, c, column);
                Ok(answer)
            }
            Err(error) => {
                self.give_back(pass, c, column);
                Err(error)
            }
        }
    }

    /// Puts a play of client `c`, which is below the number of clients, at frame `n`, as
    /// [`put`](Self::put) does, of orders that are lent, at most
    /// [`MAX_ORDERS`](game_orders::MAX_ORDERS).
    pub fn put_play<R: Wait>(
        &self,
        rt: &R,
        pass: &mut Pass,
        c: u8,
        n: u32,
        orders: &[Order],
    ) -> Result<Put, NoMemory>
        requires pass { IsPassOf self.now pass.old }
        requires client { c < length (plan_of self.now) }
        requires limit { length orders.now ≤ MAX_ORDERS }
        requires may { MayPut (standing pass.old c) n (Play orders.now) }
        ensures pass { IsPassOf self.now pass.new }
        ensures ok { IfOk result (PutsSo c (view_of pass.old) (view_of pass.new) n
            (Play orders.now)) }
        ensures err { OnErr result (Unchanged (view_of pass.old) (view_of pass.new)) }
    {
        let mut column = self.lock(rt, pass, c);
        match column.put_play(0, n, orders) {
            Ok(answer) => {
                self.publish(pass, c, column);
                Ok(answer)
            }
            Err(error) => {
                self.give_back(pass, c, column);
                Err(error)
            }
        }
    }

    /// Lets client `c`, which is below the number of clients, leave: its departure stands at the
    /// frame that is its number of plays. `Already` exactly where it has left, and then nothing
    /// changes. Afterwards the pass has seen, and knows, all of the column. A planned column is
    /// left only where the pass has seen all its plays.
    pub fn leave<R: Wait>(&self, rt: &R, pass: &mut Pass, c: u8) -> Leaving
        requires pass { IsPassOf self.now pass.old }
        requires client { c < length (plan_of self.now) }
        requires may { MayLeaveBy (standing pass.old c).planned (standing pass.old c).reach }
        ensures pass { IsPassOf self.now pass.new }
        ensures left { LeavesSo c (view_of pass.old) (view_of pass.new) result }
    {
        let mut column = self.lock(rt, pass, c);
        let answer = column.leave(0);
        self.publish(pass, c, column);
        answer
    }

    /// The entry of client `c`, which is below the number of clients, at frame `n`, which the pass
    /// has seen: the play there, or the departure at or before it. No column changes. Afterwards
    /// the pass has seen, and knows, all of the column.
    pub fn take<R: Wait>(&self, rt: &R, pass: &mut Pass, c: u8, n: u32) -> Entry
        requires pass { IsPassOf self.now pass.old }
        requires client { c < length (plan_of self.now) }
        requires seen { HasSeen (standing pass.old c).reach n }
        ensures pass { IsPassOf self.now pass.new }
        ensures taken { TakesSo c (view_of pass.old) (view_of pass.new) n result }
    {
        let column = self.lock(rt, pass, c);
        let entry = entry_or_leave(column.entry(0, n));
        self.publish(pass, c, column);
        entry
    }
}

/// The entry that was found, or a departure.
fn entry_or_leave(found: Option<&Entry>) -> Entry
    ensures { result ≡ or_leave (option_copied found.entry) }
{
    match found {
        Some(Entry::Play(orders)) => Entry::Play(copy_of(orders)),
        _ => Entry::Leave,
    }
}

/// The same orders once more. Most plays have none, and need no copy.
fn copy_of(orders: &Orders) -> Orders
    ensures { result ≡ orders.now }
{
    if orders.is_empty() {
        Orders::empty()
    } else {
        orders.copy()
    }
}
