//! The threads that play the scripts.
ghost use Rattle.std.specs.Prelude.{◌≡◌, ◌≢◌, ◌<◌, ◌≤◌, ℕ, length, All, OnOk};
ghost use Rattle.game_orders.specs.declared.limits.TheConstants.{MAX_FRAMES};
ghost use Rattle.drill_words.specs.Scripts.{plays_of};
ghost use Rattle.frame_table.specs.Calls.{view_of, standing};
ghost use Rattle.match_run.specs.Local.{IsAll, script_column};
ghost use Rattle.match_run.specs.Passes.{IsLocalPass, IsClientPass, shares_of};

use crate::client_pass::ClientPass;
use base::NoMemory;
use drill_words::Scripts;
use frame_table::{FrameTable, Pass};
use game_io::Gate;
use game_orders::MAX_CLIENTS;
use std::sync::Wait;
use std::sync::atomic::{AtomicBool, Ordering};
use std::thread;
use std::thread::Threads;

/// How many plays a client's thread puts before it lets others run.
const PLAYS_IN_A_ROW: u32 = 128;

/// Plays the script of each of these clients, in a thread of its own. A thread that is out of
/// memory raises the flag, and ends.
pub(crate) fn play_all<R: Threads + Wait + Sync, G: Gate + Sync>(
    rt: &R,
    table: &FrameTable,
    scripts: &Scripts,
    gate: &G,
    out_of_memory: &AtomicBool,
    passes: &mut [ClientPass],
)
    requires { All (λ f. IsClientPass scripts.now table.now f) passes.old }
    ensures all { All (λ f. IsClientPass scripts.now table.now f) passes.new }
    ensures shares { shares_of passes.new ≡ shares_of passes.old }
{
    let each = |_: usize, own: &mut ClientPass|
        requires { IsClientPass scripts.now table.now own.now }
        ensures { IsClientPass scripts.entry.now table.entry.now own.exit.now ×
            ((view_of own.exit.now.pass).share ≡ (view_of own.entry.now.pass).share) }
    { play_or_raise(rt, table, scripts, gate, out_of_memory, own) };
    thread::for_each_mut(rt, passes, MAX_CLIENTS as usize, &each);
}

/// Plays the script of a client, or raises the flag where it is out of memory.
fn play_or_raise<R: Wait, G: Gate>(
    rt: &R,
    table: &FrameTable,
    scripts: &Scripts,
    gate: &G,
    out_of_memory: &AtomicBool,
    own: &mut ClientPass,
)
    requires { IsClientPass scripts.now table.now own.old }
    ensures own { IsClientPass scripts.now table.now own.new }
    ensures share { (view_of own.new.pass).share ≡ (view_of own.old.pass).share }
{
    let played = play_script(rt, table, scripts, gate, own.client, &mut own.pass);
    if played.is_err() {
        out_of_memory.store(true, Ordering::SeqCst);
    }
}

/// Puts each play of client `c`, which is below the number of clients, and lets the client leave
/// after the last. Out of memory is its one error; then the client has not left.
fn play_script<R: Wait, G: Gate>(
    rt: &R,
    table: &FrameTable,
    scripts: &Scripts,
    gate: &G,
    c: u8,
    pass: &mut Pass,
) -> Result<(), NoMemory>
    requires pass { IsLocalPass scripts.now table.now pass.old }
    requires client { c < length scripts.now }
    ensures pass { IsLocalPass scripts.now table.now pass.new }
    ensures share { (view_of pass.new).share ≡ (view_of pass.old).share }
    ensures played { OnOk result (IsAll (standing pass.new c)
        (script_column (plays_of scripts.now c))) }
    ensures others { (d : ℕ) → d ≢ c → (standing pass.new d).made ≡ (standing pass.old d).made }
{
    let plays = scripts.plays(c);
    for n in 0..plays.len() as u32 {
        gate.before(c, n);
        let _answer = table.put_play(rt, pass, c, n, plays.play(n as usize))?;
        gate.after(c, n);
        give_way(n);
    }
    let _left = table.leave(rt, pass, c);
    Ok(())
}

/// After every so many plays, lets other threads run. With fewer processors than clients they all
/// come on together, and the ticking thread needs plays of each.
fn give_way(n: u32) {
    if n % PLAYS_IN_A_ROW == PLAYS_IN_A_ROW - 1 {
        thread::yield_now();
    }
}
