//! The calls that only load words. They take no lock.
ghost use Rattle.std.specs.Prelude.{◌≡◌, ◌<◌, ◌≤◌, length, ℕ};
ghost use Rattle.game_orders.specs.declared.limits.TheConstants.{MAX_FRAMES};
ghost use Rattle.frame_table.specs.Part.{OthersStay};
ghost use Rattle.frame_core.specs.Grows.{GrowsTo};
ghost use Rattle.frame_table.specs.Steps.{IsFurther, IsWithinPlan, loaded};
ghost use Rattle.frame_table.specs.Calls.{plan_of, view_of, standing, IsPassOf, IsLater};
ghost use Rattle.frame_table.specs.Calls.{input_seen, ready_seen, MeansReadySeen};

use crate::pass::Pass;
use crate::rule::Loading;
use crate::seen::Seen;
use crate::table::FrameTable;
use crate::word;
use frame_core::{Input, Ready};

impl FrameTable {
    /// How much of the column of client `c`, which is below the number of clients, its word shows
    /// now. The pass has seen just that afterwards, which is no less than before. Of a planned
    /// column it is no more than is planned, and the departure only at the plan's end.
    pub fn seen(&self, pass: &mut Pass, c: u8) -> Seen
        requires pass { IsPassOf self.now pass.old }
        requires client { c < length (plan_of self.now) }
        ensures pass { IsPassOf self.now pass.new }
        ensures others { OthersStay c (view_of pass.old) (view_of pass.new) }
        ensures part { standing pass.new c ≡ loaded (standing pass.old c) result }
        ensures further { IsFurther (standing pass.old c).reach result }
        ensures known { GrowsTo (standing pass.old c).known (standing pass.new c).known }
        ensures limit { result.plays ≤ MAX_FRAMES }
        ensures plan { IsWithinPlan (standing pass.old c).planned result }
    {
        let found = self
            .inner
            .shared
            .load::<Loading>(&mut pass.seat, c as usize);
        word::seen(found)
    }

    /// Whether frame `n` is ready, by what the pass has seen when the call ends: `NotYet` with the
    /// least client that has neither a play at `n` nor left at or before it, as its word showed it
    /// in this call; else `Over` where no client has a play at `n`. Words are loaded by rising
    /// client, up to one that has neither.
    pub fn ready(&self, pass: &mut Pass, n: u32) -> Ready
        requires pass { IsPassOf self.now pass.old }
        ensures pass { IsPassOf self.now pass.new }
        ensures later { IsLater (view_of pass.old) (view_of pass.new) }
        ensures value { result ≡ ready_seen (view_of pass.new) n }
        ensures means { MeansReadySeen (view_of pass.new) n result }
        ensures loaded { (c : ℕ) → result ≡ Ready.NotYet c →
            (standing pass.old c).loads < (standing pass.new c).loads }
        ensures limit { result ≡ Ready.Yes → n < MAX_FRAMES }
    {
        let mut played = false;
        for c in 0..self.whole.clients() {
            match input(self.seen(pass, c), n) {
                Input::Missing => return Ready::NotYet(c),
                Input::Played => played = true,
                Input::Departed => {}
            }
        }
        if played { Ready::Yes } else { Ready::Over }
    }
}

/// What was seen of a column tells for frame `n`.
fn input(seen: Seen, n: u32) -> Input
    ensures { result ≡ input_seen seen n }
{
    if n < seen.plays {
        Input::Played
    } else if seen.left {
        Input::Departed
    } else {
        Input::Missing
    }
}
