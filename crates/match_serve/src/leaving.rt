//! Clients that are let go by the server.
ghost use Rattle.std.specs.Prelude.{◌≡◌, ◌^◌, ◌<◌, ℕ, true};
ghost use Rattle.frame_table.specs.Calls.{view_of, standing};
ghost use Rattle.match_serve.specs.Passes.{IsServePass, IsTakenOut, AllGone};

use frame_table::{FrameTable, Pass};
use std::sync::Wait;

/// Lets client `c`, which is below this number, leave.
#[tactic(auto, using(crate::proofs::LeaveLemmas::may_leave))]
pub(crate) fn let_go<R: Wait>(rt: &R, table: &FrameTable, pass: &mut Pass, clients: u8, c: u8)
    requires pass { IsServePass clients table.now pass.old }
    requires client { c < clients }
    ensures pass { IsServePass clients table.now pass.new }
    ensures leaves { IsTakenOut c (view_of pass.old) (view_of pass.new) }
{
    let _left = table.leave(rt, pass, c);
}

/// Lets each client leave. Then the pass has seen and knows each whole column. A pass that had the
/// whole share has fixed each departure that it knew before.
pub(crate) fn leave_all<R: Wait>(rt: &R, table: &FrameTable, pass: &mut Pass, clients: u8)
    requires { IsServePass clients table.now pass.old }
    ensures pass { IsServePass clients table.now pass.new }
    ensures gone { AllGone clients (view_of pass.old) (view_of pass.new) }
    ensures once { (view_of pass.old).share ≡ 2 ^ 62 → (c : ℕ) → c < clients →
        (standing pass.old c).known.left ≡ true → (standing pass.old c).made ≡ 1 }
{
    for c in 0..clients {
        let_go(rt, table, pass, clients, c);
    }
}
