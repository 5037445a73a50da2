//! How a reader waits while its client's column is ahead of the match.
ghost use Rattle.std.specs.Prelude.{◌≡◌, ◌<◌, ◌≤◌, length};
ghost use Rattle.frame_table.specs.Calls.{plan_of, view_of, standing, IsPassOf};
ghost use Rattle.match_net.specs.Ahead.{GoesOn, IsInStep, LooksAround, MayGoOn};
ghost use Rattle.match_net.specs.Reading.{MayPlay};

use frame_core::Ready;
use frame_table::{FrameTable, Pass};
use idle_pause::Pause;
use std::sync::Wait;

/// True where the column of client `c` has at most `lag` frames above the ready ones or is left, by
/// what the pass has seen when the call ends: then the client's reader may put its next packet.
fn may_go_on(table: &FrameTable, pass: &mut Pass, c: u8, lag: u8) -> bool
    requires pass { IsPassOf table.now pass.old }
    requires client { c < length (plan_of table.now) }
    requires may { MayPlay (standing pass.old c) }
    requires seen { length (standing pass.old c).known.plays ≤ (standing pass.old c).reach.plays }
    ensures pass { IsPassOf table.now pass.new }
    ensures looks { LooksAround c (view_of pass.old) (view_of pass.new) }
    ensures goes { GoesOn lag c (view_of pass.new) result }
{
    let room = u32::from(lag);
    let plays = table.seen(pass, c).plays;
    if plays <= room {
        return true;
    }
    match table.ready(pass, plays - room - 1) {
        Ready::Yes => true,
        Ready::NotYet(_) => table.seen(pass, c).left,
        Ready::Over => true,
    }
}

/// Waits until the reader of client `c`'s link may put its next packet: until its column has at
/// most `lag` frames above the ready ones, or is left.
pub(crate) fn wait_to_go_on<R: Wait>(rt: &R, table: &FrameTable, pass: &mut Pass, c: u8, lag: u8)
    requires pass { IsPassOf table.now pass.old }
    requires client { c < length (plan_of table.now) }
    requires may { MayPlay (standing pass.old c) }
    requires step { IsInStep lag c (view_of pass.old) }
    ensures pass { IsPassOf table.now pass.new }
    ensures looks { LooksAround c (view_of pass.old) (view_of pass.new) }
    ensures step { IsInStep lag c (view_of pass.new) }
    ensures goes { MayGoOn lag c (view_of pass.new) }
{
    let mut pause = Pause::new();
    for _look in rt.forever() {
        if may_go_on(table, pass, c, lag) {
            return;
        }
        pause.rest(rt);
    }
    unreachable!()
}
