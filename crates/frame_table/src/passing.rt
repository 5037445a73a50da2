//! The calls that make and end passes.
ghost use Rattle.std.specs.Prelude.{◌≡◌, ◌<◌, ◌≤◌, length, ℕ, IfOk, Some, replicate, [], ◌∷◌};
ghost use Rattle.frame_core.specs.Column.{Column, column_of, no_column};
ghost use Rattle.frame_core.specs.Grows.{GrowsTo};
ghost use Rattle.frame_table.specs.Passes.{first_view, kept_view, given_view, joined_view};
ghost use Rattle.frame_table.specs.Steps.{IsFound};
ghost use Rattle.frame_table.specs.Calls.{plan_of, view_of, standing, IsPassOf, HasGathered};
ghost use Rattle.game_orders.specs.declared.limits.TheConstants.{MAX_CLIENTS};

use crate::pass::Pass;
use crate::plan::Plan;
use crate::rule::{Halves, Meeting};
use crate::table::{FrameTable, WORDS};
use atomic_table::Table;
use base::NoMemory;
use frame_core::Columns;
use std::alloc::{AllocError, Global};
use std::sync::Wait;

impl FrameTable {
    /// The table of 1 to `MAX_CLIENTS` clients, with empty columns, and its first pass, which has
    /// the whole share, 2^62, and feeds each free column. The plan has as many clients. It fails
    /// only where it is out of memory.
    pub fn create(alloc: Global, clients: u8, plan: Plan) -> Result<(FrameTable, Pass), NoMemory>
        requires least { 1 ≤ clients }
        requires most { clients ≤ MAX_CLIENTS }
        requires plan { length plan ≡ clients }
        ensures pass { IfOk result (λ made. IsPassOf made.0 made.1) }
        ensures plan { IfOk result (λ made. plan_of made.0 ≡ plan) }
        ensures first { IfOk result (λ made. view_of made.1 ≡ first_view plan) }
    {
        let whole = Columns::create(alloc, clients)?;
        let slots = empty_slots(alloc, clients)?;
        let Ok((inner, seat)) = Table::new(alloc, &[0; WORDS], slots, &plan) else {
            return Err(AllocError);
        };
        Ok((FrameTable { inner, whole }, Pass { seat }))
    }

    /// Makes another pass. It has half of the share, rounded down, has seen and knows what this
    /// pass does, has fixed no departure, and feeds the least free column that this pass fed, if
    /// there is one, which this pass then no longer feeds. The share of the pass is at least 2.
    pub fn split(&self, pass: &mut Pass) -> Pass
        requires pass { IsPassOf self.now pass.old }
        requires share { 2 ≤ (view_of pass.old).share }
        ensures pass { IsPassOf self.now pass.new }
        ensures kept { view_of pass.new ≡ kept_view (view_of pass.old) }
        ensures other { IsPassOf self.now result }
        ensures given { view_of result ≡ given_view (view_of pass.old) }
    {
        let seat = self.inner.shared.split_seat::<Halves>(&mut pass.seat);
        Pass { seat }
    }

    /// Joins another pass into this one, which then has both shares and rights, the departures that
    /// both fixed, and what either has seen or knows. Of what the two knew of a column the one
    /// begins the other.
    pub fn join(&self, pass: &mut Pass, other: Pass)
        requires pass { IsPassOf self.now pass.old }
        requires other { IsPassOf self.now other }
        ensures pass { IsPassOf self.now pass.new }
        ensures joined { view_of pass.new ≡ joined_view (view_of pass.old) (view_of other) }
        ensures mine { (c : ℕ) → c < length (plan_of self.now) →
            GrowsTo (standing pass.old c).known (standing pass.new c).known }
        ensures theirs { (c : ℕ) → c < length (plan_of self.now) →
            GrowsTo (standing other c).known (standing pass.new c).known }
    {
        let Pass { seat } = other;
        self.inner.shared.join_seat::<Halves>(&mut pass.seat, seat);
        self.inner.shared.load::<Meeting>(&mut pass.seat, 0);
    }

    /// Ends the table, and gives its columns back. Each begins with what the pass knows and has all
    /// that it has seen. If the pass has the whole share, every other pass was joined into it, and
    /// the departures that stand are those that it fixed. The call takes each column's lock.
    pub fn close<R: Wait>(self, rt: &R, pass: Pass) -> Columns
        requires pass { IsPassOf self pass }
        ensures clients { length result ≡ length (plan_of self) }
        ensures columns { (c : ℕ) → c < length (plan_of self) →
            IsFound (standing pass c) (column_of result c) }
    {
        let mut table = self;
        let mut pass = pass;
        for c in 0..table.whole.clients() {
            table.gather(rt, &mut pass, c);
        }
        let FrameTable { inner: _, whole } = table;
        whole
    }

    /// Takes column `c` out of its slot, for good, and puts it where `close` gives it back.
    fn gather<R: Wait>(&mut self, rt: &R, pass: &mut Pass, c: u8)
        requires same { pass.old.seat.table_id ≡ self.old.inner.shared.table_id }
        requires share { 0 < (view_of pass.old).share }
        requires client { c < length (plan_of self.old) }
        ensures same { pass.new.seat.table_id ≡ pass.old.seat.table_id }
        ensures inner { self.new.inner ≡ self.old.inner }
        ensures gathered { HasGathered c (view_of pass.old) (view_of pass.new)
            self.old.whole self.new.whole }
    {
        let mut column = self.lock(rt, pass, c);
        self.whole.swap_column(c, &mut column, 0);
    }
}

/// The slots of so many columns, each empty.
fn empty_slots(alloc: Global, clients: u8) -> Result<Vec<Option<Columns>>, NoMemory>
    ensures { IfOk result (λ slots. slots.items ≡ replicate clients (Some (no_column ∷ []))) }
{
    let mut slots = Vec::new(alloc);
    for _client in 0..clients {
        let column = Columns::create(alloc, 1)?;
        slots.push(Some(column))?;
    }
    Ok(slots)
}
