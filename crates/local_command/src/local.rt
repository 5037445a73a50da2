ghost use Rattle.std.specs.Prelude.{◌≡◌, ◌≤◌, ◌+◌, ◌++◌, List, false, length, IfOk, OnOk};
ghost use Rattle.std.specs.Prelude.{string_bytes};
ghost use Rattle.game_orders.specs.declared.limits.TheConstants.{MAX_CLIENTS};
ghost use Rattle.frame_core.specs.Column.{Column};
ghost use Rattle.drill.specs.Report.{column_lines};
ghost use Rattle.drill.specs.Text.{world_text, end_line};
ghost use Rattle.drill_words.specs.declared.limits.TheConstants.{MAX_DRILL_BYTES};
ghost use Rattle.drill_words.specs.Script.{read_script_of};
ghost use Rattle.match_run.specs.Bots.{match_columns, match_world};
ghost use Rattle.match_run.specs.Local.{IsFilled, frames_of};
ghost use Rattle.command_answers.specs.Stop.{IsRefusal, ReturnsStep};
ghost use Rattle.local_command.specs.LocalText.{local_head, local_lines, local_step, script_step};
ghost use Rattle.local_command.specs.LocalText.{too_many_clients};

use base::NoMemory;
use command_answers::{Stop, drill_stop};
use drill::{add_columns, add_end_line, add_world};
use drill_words::{MAX_DRILL_BYTES, Scripts, read_script};
use frame_core::{Columns, Maker, Sim};
use game_bots::GameBots;
use game_io::Gate;
use game_orders::MAX_CLIENTS;
use match_run::{Bots, LocalRun, closed_columns_are_those, frames_of, run_with_bots};
use std::alloc::Global;
use std::fmt::Write;
use std::sync::Wait;
use std::thread::Threads;
use tick_core::GameMaker;

/// Plays the match that the bytes of a script write, and so many bots beside it, on threads, over
/// games of this maker, and makes the text of the command `local`. Or it refuses the script, whose
/// file has this name: for its first fault, or else, with `TooManyClients` at 0, where its clients
/// and the bots are more than [`MAX_CLIENTS`]. The gate is asked before and after each put of a
/// script's play. It returns only if its threads do.
pub fn local_text<'a, G: Gate + Sync, R: Threads + Wait + Sync>(
    rt: &R,
    alloc: Global,
    maker: &GameMaker,
    name: &'a str,
    bytes: &[u8],
    bots: u8,
    gate: &G,
) -> Result<Vec<u8>, Stop<'a>>
    requires { length bytes.now ≤ MAX_DRILL_BYTES }
    ensures { ReturnsStep result (λ text. text.items)
        (local_step maker.now name.now bytes.now bots) }
{
    // the hash is asked for once, at the end
    let maker = maker.without_kept_hashes()?;
    match_text(rt, alloc, &maker, &GameBots, name, bytes, bots, gate)
}

/// The same over worlds of any maker, and any bots.
fn match_text<'a, M: Maker, B: Bots<M::World>, G: Gate + Sync, R: Threads + Wait + Sync>(
    rt: &R,
    alloc: Global,
    maker: &M,
    bots: &B,
    name: &'a str,
    bytes: &[u8],
    count: u8,
    gate: &G,
) -> Result<Vec<u8>, Stop<'a>>
    requires { length bytes.now ≤ MAX_DRILL_BYTES }
    ensures { ReturnsStep result (λ text. text.items)
        (script_step M.World.after M.World.hash_of M.World.summary_of (B.orders_of bots.now)
        (M.made maker.now) name.now count (read_script_of false bytes.now)) }
{
    match read_script(alloc, bytes, false) {
        Ok((seed, scripts)) => {
            if scripts.clients() > MAX_CLIENTS.saturating_sub(count) {
                return Err(too_many_clients(name));
            }
            Ok(played_text(rt, alloc, maker, bots, seed, &scripts, count, gate)?)
        }
        Err(fault) => Err(drill_stop(name, &fault)),
    }
}

/// The refusal of a script with more clients than a match can have beside the bots.
fn too_many_clients<'a>(name: &'a str) -> Stop<'a>
    ensures { IsRefusal result (too_many_clients name.now) }
{
    Stop::Refused {
        name,
        place: 0,
        cause: "TooManyClients",
    }
}

/// Plays the match of these scripts and bots, and makes its text.
fn played_text<M: Maker, B: Bots<M::World>, G: Gate + Sync, R: Threads + Wait + Sync>(
    rt: &R,
    alloc: Global,
    maker: &M,
    bots: &B,
    seed: u32,
    scripts: &Scripts,
    count: u8,
    gate: &G,
) -> Result<Vec<u8>, NoMemory>
    requires { length scripts.now + count ≤ MAX_CLIENTS }
    ensures { IfOk result (λ text. text.items
        ≡ local_lines M.World.hash_of M.World.summary_of (record {
          after = M.World.after;
          orders = B.orders_of bots.now;
          start = M.made maker.now seed (length scripts.now + count);
          scripts = scripts.now;
          bots = count;
        })) }
{
    let sim = maker.make(alloc, seed, scripts.clients() + count)?;
    let run = run_with_bots(rt, alloc, scripts, sim, bots, count, gate)?;
    run_text(rt, alloc, run, frames_of(scripts))
}

/// The text of a match of so many frames that was played.
fn run_text<S: Sim, R: Threads + Wait + Sync>(
    rt: &R,
    alloc: Global,
    run: LocalRun<S>,
    frames: u32,
) -> Result<Vec<u8>, NoMemory>
    requires { (columns : List Column) × IsFilled columns run.table run.pass }
    ensures { IfOk result (λ text. (columns : List Column) →
        IsFilled columns run.table run.pass → text.items ≡ column_lines 0 columns
        ++ local_head frames ++ world_text S.hash_of S.summary_of run.sim ++ end_line) }
{
    let LocalRun { sim, table, pass } = run;
    closed_columns_are_those();
    let columns = table.close(rt, pass);
    Ok(ended_text(alloc, &columns, frames, &sim)?.into_bytes())
}

/// The lines of the columns, of the world after all their frames, and the end.
fn ended_text<S: Sim>(
    alloc: Global,
    columns: &Columns,
    frames: u32,
    sim: &S,
) -> Result<String, NoMemory>
    ensures { IfOk result (λ text. string_bytes text ≡ column_lines 0 columns.now
        ++ local_head frames ++ world_text S.hash_of S.summary_of sim.now ++ end_line) }
{
    let mut text = String::new(alloc);
    add_columns(&mut text, columns)?;
    add_local_head(&mut text, frames)?;
    add_world(&mut text, sim)?;
    add_end_line(&mut text)?;
    Ok(text)
}

/// Adds the beginning of the line of the world.
#[tactic(auto, unfolding(crate::specs::LocalText::local_head))]
fn add_local_head(text: &mut String, frames: u32) -> Result<(), NoMemory>
    ensures { OnOk result (string_bytes text.new ≡ string_bytes text.old ++ local_head frames) }
{
    write!(text, "local frames {frames}")
}
