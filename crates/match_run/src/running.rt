ghost use Rattle.std.specs.Prelude.{◌≡◌, ◌+◌, ◌<◌, ◌≤◌, ◌^◌, [], ℕ, length, All, IfOk, OnOk};
ghost use denote.Param.Send.{IsSync};
ghost use Rattle.game_orders.specs.declared.limits.TheConstants.{MAX_CLIENTS};
ghost use Rattle.drill_words.specs.Scripts.{plays_of};
ghost use Rattle.frame_table.specs.Calls.{plan_of, view_of, standing};
ghost use Rattle.match_run.specs.Bots.{IsPlayed, bot_column, match_columns, match_world};
ghost use Rattle.match_run.specs.Feeding.{HasFedAll, HasEndedAll};
ghost use Rattle.match_run.specs.Local.{IsAll, IsFilled, script_column, script_columns, frames_of};
ghost use Rattle.match_run.specs.Local.{world_of};
ghost use Rattle.match_run.specs.Passes.{IsLocalPass, KnowsAllSeen, IsClientPass, IsStepped};
ghost use Rattle.match_run.specs.Passes.{shares_of};

use crate::client_pass::ClientPass;
use crate::feeding::look_again;
use crate::idle_bots::IdleBots;
use crate::local_run::LocalRun;
use crate::passing::{join_passes, join_unused, planned_table, split_passes};
use crate::playing::play_all;
use crate::ticking::tick_all;
use base::NoMemory;
use bots::Bots;
use drill_words::Scripts;
use frame_core::Sim;
use frame_table::{FrameTable, Pass};
use game_io::Gate;
use std::alloc::Global;
use std::sync::Wait;
use std::sync::atomic::AtomicBool;
use std::thread::{Threads, join_mut};

/// Plays the scripts of a match to its end, on threads, as [`run_with_bots`] does without bots.
///
/// The run has the table that it filled: each column is the client's script, left at its end. Its
/// world is the one that was given, stepped by the frames of these columns, as many as the longest
/// script has.
pub fn run_local<S: Sim, G: Gate + Sync, R: Threads + Wait + Sync>(
    rt: &R,
    alloc: Global,
    scripts: &Scripts,
    sim: S,
    gate: &G,
) -> Result<LocalRun<S>, NoMemory>
    requires clients { S.clients_of sim ≡ length scripts.now }
    requires fresh { S.steps sim ≡ 0 }
    ensures filled { IfOk result (λ run. IsFilled (script_columns scripts.now) run.table run.pass) }
    ensures world { IfOk result (λ run. run.sim ≡ world_of S.after sim scripts.now) }
    ensures clients { IfOk result (λ run. S.clients_of run.sim ≡ S.clients_of sim) }
    ensures steps { IfOk result (λ run. S.steps run.sim ≡ frames_of scripts.now) }
{
    run_with_bots(rt, alloc, scripts, sim, &IdleBots, 0, gate)
}

/// Plays a match to its end, on threads: the scripts of its first clients, and so many bots, which
/// are its last. The world is that of all these clients, and has made no step. One thread for each
/// client of a script puts the plays of its script, and then lets it leave. The calling thread
/// ticks each frame that is ready until the match is over. Before it asks whether a frame is ready
/// it puts what each bot orders in the world as it is then; bots leave after as many frames as the
/// longest script has. The gate is asked before and after each put of a script's play.
///
/// The run has the table that it filled. In it each script's column is the script, left at its end,
/// and a bot's entry at each frame before the longest script's end is what it orders in the world
/// that the agreed frames before it make. The pass has the whole share, and has seen and knows each
/// whole column. The world is the one that was given, stepped by the frames of these columns, as
/// many as the longest script has. Out of memory is its one error, also where the thread of a
/// client is, or a bot. It returns only if its threads do.
pub fn run_with_bots<S: Sim, B: Bots<S>, G: Gate + Sync, R: Threads + Wait + Sync>(
    rt: &R,
    alloc: Global,
    scripts: &Scripts,
    sim: S,
    bots: &B,
    count: u8,
    gate: &G,
) -> Result<LocalRun<S>, NoMemory>
    requires clients { S.clients_of sim ≡ length scripts.now + count }
    requires fresh { S.steps sim ≡ 0 }
    ensures filled { IfOk result (λ run. IsFilled (match_columns (record {
      after = S.after;
      orders = B.orders_of bots.now;
      start = sim;
      scripts = scripts.now;
      bots = count;
    }))
        run.table run.pass) }
    ensures played { IsPlayed (record {
      after = S.after;
      orders = B.orders_of bots.now;
      start = sim;
      scripts = scripts.now;
      bots = count;
    }) (match_columns (record {
      after = S.after;
      orders = B.orders_of bots.now;
      start = sim;
      scripts = scripts.now;
      bots = count;
    })) }
    ensures world { IfOk result (λ run. run.sim ≡ match_world (record {
      after = S.after;
      orders = B.orders_of bots.now;
      start = sim;
      scripts = scripts.now;
      bots = count;
    })) }
    ensures clients { IfOk result (λ run. S.clients_of run.sim ≡ S.clients_of sim) }
    ensures steps { IfOk result (λ run. S.steps run.sim ≡ frames_of scripts.now) }
{
    let mut sim = sim;
    let _clients = sim.clients();
    let (table, mut pass, mut passes) = begin(alloc, scripts, count)?;
    run_threads(
        rt,
        alloc,
        &table,
        scripts,
        bots,
        count,
        gate,
        passes.as_mut_slice(),
        &mut pass,
        &mut sim,
    )?;
    join_passes(&table, scripts, &mut pass, passes);
    look_again(rt, &table, scripts, count, &mut pass);
    Ok(LocalRun { sim, table, pass })
}

/// The table of a match, the pass of the ticking thread, which feeds each bot's column, and those
/// of the clients' threads. A split hands the first right to add plays over, so passes are split
/// off for all of these before the clients', and joined back after.
fn begin(
    alloc: Global,
    scripts: &Scripts,
    count: u8,
) -> Result<(FrameTable, Pass, Vec<ClientPass>), NoMemory>
    requires { length scripts.now + count ≤ MAX_CLIENTS }
    ensures table { IfOk result (λ made.
        length (plan_of made.0) ≡ length scripts.now + count) }
    ensures pass { IfOk result (λ made. IsLocalPass scripts.now made.0 made.1) }
    ensures knows { IfOk result (λ made. KnowsAllSeen scripts.now made.1) }
    ensures fed { IfOk result (λ made.
        HasFedAll (length scripts.now) made.0 (λ c. []) made.1) }
    ensures passes { IfOk result (λ made.
        All (λ f. IsClientPass scripts.now made.0 f) made.2.items) }
    ensures shares { IfOk result (λ made.
        (view_of made.1).share + shares_of made.2.items ≡ 2 ^ 62) }
{
    let clients = scripts.clients();
    let (table, mut pass) = planned_table(alloc, scripts, count)?;
    let feeding = split_passes(alloc, &table, &mut pass, clients, clients + count)?;
    let passes = split_passes(alloc, &table, &mut pass, 0, clients)?;
    join_unused(&table, &mut pass, feeding);
    Ok((table, pass, passes))
}

/// Plays all scripts, and ticks all frames beside it.
fn run_threads<S: Sim, B: Bots<S>, G: Gate + Sync, R: Threads + Wait + Sync>(
    rt: &R,
    alloc: Global,
    table: &FrameTable,
    scripts: &Scripts,
    bots: &B,
    count: u8,
    gate: &G,
    passes: &mut [ClientPass],
    pass: &mut Pass,
    sim: &mut S,
) -> Result<(), NoMemory>
    requires pass { IsLocalPass scripts.now table.now pass.old }
    requires knows { KnowsAllSeen scripts.now pass.old }
    requires table { length (plan_of table.now) ≡ length scripts.now + count }
    requires fed { HasFedAll (length scripts.now) table.now (λ c. []) pass.old }
    requires passes { All (λ f. IsClientPass scripts.now table.now f) passes.old }
    requires clients { S.clients_of sim.old ≡ length scripts.now + count }
    requires fresh { S.steps sim.old ≡ 0 }
    ensures pass { IsLocalPass scripts.now table.now pass.new }
    ensures share { (view_of pass.new).share ≡ (view_of pass.old).share }
    ensures passes { All (λ f. IsClientPass scripts.now table.now f) passes.new }
    ensures shares { shares_of passes.new ≡ shares_of passes.old }
    ensures all { OnOk result ((c : ℕ) → c < length scripts.now →
        IsAll (standing pass.new c) (script_column (plays_of scripts.now c))) }
    ensures bots { OnOk result (HasEndedAll (length scripts.now) table.now
        (bot_column (record {
          after = S.after;
          orders = B.orders_of bots.now;
          start = sim.old;
          scripts = scripts.now;
          bots = count;
        })) pass.new) }
    ensures world { OnOk result (IsStepped (record {
      after = S.after;
      orders = B.orders_of bots.now;
      start = sim.old;
      scripts = scripts.now;
      bots = count;
    })
        S.clients_of S.steps sim.new (frames_of scripts.now)) }
{
    let out_of_memory = AtomicBool::new(false);
    let flag = &out_of_memory;
    let mut play = ||
        requires { IsSync R.row × IsSync G.row × All (λ f. IsClientPass scripts.now table.now f)
            passes.now }
        ensures { All (λ f. IsClientPass scripts.entry.now table.entry.now f) passes.exit.now ×
            (shares_of passes.exit.now ≡ shares_of passes.entry.now) }
    { play_all(rt, table, scripts, gate, flag, passes) };
    let mut tick = || tick_all(rt, alloc, table, scripts, bots, count, flag, pass, sim);
    let (_played, ticked) = join_mut(rt, &mut play, &mut tick);
    ticked
}
