//! The lock of a column.
ghost use Rattle.std.specs.Prelude.{◌≡◌, ◌<◌, length, [], ◌∷◌, None, MatchBool};
ghost use Rattle.frame_core.specs.Column.{Column};
ghost use Rattle.frame_table.specs.Steps.{HasTaken, MayPublish, published_as, released};
ghost use Rattle.frame_table.specs.Calls.{plan_of, view_of, standing, HasLocked, GaveBack};

use crate::pass::Pass;
use crate::rule::{GivingBack, Publishing, Taking};
use crate::table::FrameTable;
use crate::word::word;
use frame_core::Columns;
use std::sync::Wait;
use std::thread;

impl FrameTable {
    /// Takes the lock of column `c`, and the column out of its slot.
    pub(crate) fn lock<R: Wait>(&self, rt: &R, pass: &mut Pass, c: u8) -> Columns
        requires same { pass.old.seat.table_id ≡ self.now.inner.shared.table_id }
        requires share { 0 < (view_of pass.old).share }
        requires client { c < length (plan_of self.now) }
        ensures same { pass.new.seat.table_id ≡ pass.old.seat.table_id }
        ensures locked { HasLocked c pass.old.seat.me pass.new.seat.me result }
    {
        self.wait_for(rt, pass, c);
        let Some(column) = self.inner.shared.exchange(&mut pass.seat, c as usize, None) else {
            unreachable!()
        };
        column
    }

    fn wait_for<R: Wait>(&self, rt: &R, pass: &mut Pass, c: u8)
        requires same { pass.old.seat.table_id ≡ self.now.inner.shared.table_id }
        requires share { 0 < (view_of pass.old).share }
        requires client { c < length (plan_of self.now) }
        ensures same { pass.new.seat.table_id ≡ pass.old.seat.table_id }
        ensures taken { HasTaken c pass.old.seat.me pass.new.seat.me }
    {
        for _ in rt.forever() {
            if self.try_lock(pass, c) {
                return;
            }
            thread::yield_now();
        }
    }

    fn try_lock(&self, pass: &mut Pass, c: u8) -> bool
        requires same { pass.old.seat.table_id ≡ self.now.inner.shared.table_id }
        requires share { 0 < (view_of pass.old).share }
        requires client { c < length (plan_of self.now) }
        ensures same { pass.new.seat.table_id ≡ pass.old.seat.table_id }
        ensures taken { MatchBool result (HasTaken c pass.old.seat.me pass.new.seat.me)
            (pass.new.seat.me ≡ pass.old.seat.me) }
    {
        let word = self.inner.shared.peek(c as usize);
        if word % 2 != 0 {
            return false;
        }
        let found = self
            .inner
            .shared
            .compare_exchange::<Taking>(&mut pass.seat, c as usize, word, word + 1);
        found == word
    }

    /// Gives the lock of column `c` back, with what became of the column. All of it is known now.
    pub(crate) fn publish(&self, pass: &mut Pass, c: u8, column: Columns)
        requires same { pass.old.seat.table_id ≡ self.now.inner.shared.table_id }
        requires share { 0 < (view_of pass.old).share }
        requires client { c < length (plan_of self.now) }
        requires slots { pass.old.seat.me.1 ≡ (c, None) ∷ [] }
        requires becomes { MayPublish (standing pass.old c) column }
        ensures same { pass.new.seat.table_id ≡ pass.old.seat.table_id }
        ensures gave { GaveBack c pass.old.seat.me pass.new.seat.me }
        ensures part { standing pass.new c ≡ published_as (standing pass.old c) column }
    {
        let word = word(&column);
        let _none = self
            .inner
            .shared
            .exchange(&mut pass.seat, c as usize, Some(column));
        self.inner
            .shared
            .store::<Publishing>(&mut pass.seat, c as usize, word);
    }

    /// Gives the lock of column `c` back, with the column as it was. Nothing was learned.
    pub(crate) fn give_back(&self, pass: &mut Pass, c: u8, unchanged: Columns)
        requires same { pass.old.seat.table_id ≡ self.now.inner.shared.table_id }
        requires share { 0 < (view_of pass.old).share }
        requires client { c < length (plan_of self.now) }
        requires slots { pass.old.seat.me.1 ≡ (c, None) ∷ [] }
        requires held { (K : Column) × ((standing pass.old c).held ≡ K ∷ []) ×
            (unchanged ≡ K ∷ []) }
        ensures same { pass.new.seat.table_id ≡ pass.old.seat.table_id }
        ensures gave { GaveBack c pass.old.seat.me pass.new.seat.me }
        ensures part { standing pass.new c ≡ released (standing pass.old c) }
    {
        let word = word(&unchanged);
        let _none = self
            .inner
            .shared
            .exchange(&mut pass.seat, c as usize, Some(unchanged));
        self.inner
            .shared
            .store::<GivingBack>(&mut pass.seat, c as usize, word);
    }
}
