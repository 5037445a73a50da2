//! The thread that ticks.
ghost use Rattle.std.specs.Prelude.{◌≡◌, ◌+◌, ◌<◌, ◌≤◌, ◌++◌, [], ◌∷◌, ℕ, List, length, IfOk, OnOk};
ghost use Rattle.std.specs.Bool.{OnTrue};
ghost use Rattle.std.specs.Option.{option_copied};
ghost use Rattle.game_orders.specs.declared.limits.TheConstants.{MAX_CLIENTS, MAX_FRAMES};
ghost use Rattle.game_orders.specs.declared.order.Order.{Order};
ghost use Rattle.frame_core.specs.Column.{Column};
ghost use Rattle.frame_core.specs.Ready.{frame_at, or_leave};
ghost use Rattle.drill_words.specs.Scripts.{plays_of};
ghost use Rattle.frame_table.specs.Part.{OthersStay};
ghost use Rattle.frame_table.specs.Calls.{plan_of, view_of, standing, HasSeen};
ghost use Rattle.match_run.specs.Bots.{bot_column};
ghost use Rattle.match_run.specs.Feeding.{HasFedAll, HasEndedAll};
ghost use Rattle.match_run.specs.Local.{IsAll, script_column, script_columns, frames_of};
ghost use Rattle.match_run.specs.Passes.{IsLocalPass, KnowsAllSeen, IsStepped};
ghost use Rattle.match_run.specs.Taken.{IsTaken, AreTaken, HasFrame};

use crate::feeding::{leave_all, put_plays};
use crate::frames::frames_of;
use crate::taken::Taken;
use base::NoMemory;
use bots::Bots;
use drill_words::Scripts;
use frame_core::{Ready, Sim};
use frame_table::{FrameTable, Pass};
use game_orders::{Entry, Frame};
use std::alloc::{AllocError, Global};
use std::sync::Wait;
use std::sync::atomic::{AtomicBool, Ordering};
use std::thread;

/// The most plays that are taken of a column at a time.
const MOST_AT_ONCE: u32 = 256;

/// Ticks each frame until the match is over. For each frame it puts the plays of the bots before it
/// asks whether the frame is ready; after the last it lets them leave. Out of memory is its one
/// error: a client's thread has raised the flag, a bot is out of memory, or there is no room for
/// what is taken.
pub(crate) fn tick_all<S: Sim, B: Bots<S>, R: Wait>(
    rt: &R,
    alloc: Global,
    table: &FrameTable,
    scripts: &Scripts,
    bots: &B,
    count: u8,
    out_of_memory: &AtomicBool,
    pass: &mut Pass,
    sim: &mut S,
) -> Result<(), NoMemory>
    requires pass { IsLocalPass scripts.now table.now pass.old }
    requires knows { KnowsAllSeen scripts.now pass.old }
    requires table { length (plan_of table.now) ≡ length scripts.now + count }
    requires fed { HasFedAll (length scripts.now) table.now (λ c. []) pass.old }
    requires clients { S.clients_of sim.old ≡ length scripts.now + count }
    requires fresh { S.steps sim.old ≡ 0 }
    ensures pass { IsLocalPass scripts.now table.now pass.new }
    ensures share { (view_of pass.new).share ≡ (view_of pass.old).share }
    ensures all { OnOk result ((c : ℕ) → c < length scripts.now →
        IsAll (standing pass.new c) (script_column (plays_of scripts.now c))) }
    ensures bots { OnOk result (HasEndedAll (length scripts.now) table.now
        (bot_column (record {
          after = S.after;
          orders = B.orders_of bots.now;
          start = sim.old;
          scripts = scripts.now;
          bots = count;
        })) pass.new) }
    ensures world { OnOk result (IsStepped (record {
      after = S.after;
      orders = B.orders_of bots.now;
      start = sim.old;
      scripts = scripts.now;
      bots = count;
    })
        S.clients_of S.steps sim.new (frames_of scripts.now)) }
{
    let mut held = nothing_taken(alloc, scripts)?;
    let taken = held.as_mut_slice();
    let mut ordered = Frame::empty();
    let mut frame = Frame::empty();
    let frames = frames_of(scripts);
    for n in 0..frames {
        put_plays(rt, table, scripts, bots, count, sim, pass, n, &mut ordered)?;
        take_frame(rt, alloc, table, scripts, out_of_memory, pass, n, taken)?;
        tick(scripts, taken, n, &ordered, &mut frame, sim);
    }
    leave_all(rt, table, scripts, count, pass);
    await_end(rt, table, scripts, out_of_memory, pass, frames)
}

/// Takes what the scripts' clients have for frame `n`, which one of them plays, once it is ready.
fn take_frame<R: Wait>(
    rt: &R,
    alloc: Global,
    table: &FrameTable,
    scripts: &Scripts,
    out_of_memory: &AtomicBool,
    pass: &mut Pass,
    n: u32,
    taken: &mut [Taken],
) -> Result<(), NoMemory>
    requires pass { IsLocalPass scripts.now table.now pass.old }
    requires knows { KnowsAllSeen scripts.now pass.old }
    requires played { n < frames_of scripts.now }
    requires taken { AreTaken scripts.now taken.old n }
    ensures pass { IsLocalPass scripts.now table.now pass.new }
    ensures share { (view_of pass.new).share ≡ (view_of pass.old).share }
    ensures knows { OnOk result (KnowsAllSeen scripts.now pass.new) }
    ensures taken { OnOk result (AreTaken scripts.now taken.new n) }
    ensures has { OnOk result (HasFrame taken.new n) }
    ensures fed { OnOk result ((plays : ℕ → List (List Order)) →
        HasFedAll (length scripts.now) table.now plays pass.old →
        HasFedAll (length scripts.now) table.now plays pass.new) }
{
    for _turn in rt.forever() {
        if has_frame(scripts, taken, n) {
            return Ok(());
        }
        if out_of_memory.load(Ordering::SeqCst) {
            return Err(AllocError);
        }
        match table.ready(pass, n) {
            Ready::Yes => take_more(rt, alloc, table, scripts, pass, n, taken)?,
            Ready::NotYet(_) => thread::yield_now(),
            // A script has a play at this frame, so its client can't have left before.
            Ready::Over => unreachable!(),
        }
    }
    unreachable!()
}

/// Waits until all clients have left, by frame `n`, beyond which no script goes.
fn await_end<R: Wait>(
    rt: &R,
    table: &FrameTable,
    scripts: &Scripts,
    out_of_memory: &AtomicBool,
    pass: &mut Pass,
    n: u32,
) -> Result<(), NoMemory>
    requires pass { IsLocalPass scripts.now table.now pass.old }
    requires knows { KnowsAllSeen scripts.now pass.old }
    ensures pass { IsLocalPass scripts.now table.now pass.new }
    ensures share { (view_of pass.new).share ≡ (view_of pass.old).share }
    ensures all { OnOk result ((c : ℕ) → c < length scripts.now →
        IsAll (standing pass.new c) (script_column (plays_of scripts.now c))) }
    ensures bots { OnOk result ((columns : ℕ → Column) →
        HasEndedAll (length scripts.now) table.now columns pass.old →
        HasEndedAll (length scripts.now) table.now columns pass.new) }
{
    let _clients = scripts.clients();
    for _turn in rt.forever() {
        if out_of_memory.load(Ordering::SeqCst) {
            return Err(AllocError);
        }
        match table.ready(pass, n) {
            Ready::Over => return Ok(()),
            Ready::Yes | Ready::NotYet(_) => thread::yield_now(),
        }
    }
    unreachable!()
}

/// Nothing, of each client.
fn nothing_taken(alloc: Global, scripts: &Scripts) -> Result<Vec<Taken>, NoMemory>
    ensures { IfOk result (λ taken. AreTaken scripts.now taken.items 0) }
{
    let mut taken = Vec::new(alloc);
    for _client in 0..scripts.clients() {
        taken.push(Taken::new(alloc))?;
    }
    Ok(taken)
}

/// Whether frame `n` was taken: the entry of each client.
#[tactic(auto, using(crate::proofs::Taking::had_none, crate::proofs::Taking::had_more, crate::proofs::Taking::had_all))]
fn has_frame(scripts: &Scripts, taken: &[Taken], n: u32) -> bool
    requires { AreTaken scripts.now taken.now n }
    ensures { OnTrue result (HasFrame taken.now n) }
{
    let _clients = scripts.clients();
    for own in taken {
        if !own.has_entry(n) {
            return false;
        }
    }
    true
}

/// Steps the world by frame `n`: what was taken of the scripts' clients, and the entries of the
/// bots. The frame is put together in `frame`.
fn tick<S: Sim>(
    scripts: &Scripts,
    taken: &[Taken],
    n: u32,
    ordered: &Frame,
    frame: &mut Frame,
    sim: &mut S,
)
    requires taken { AreTaken scripts.now taken.now n }
    requires has { HasFrame taken.now n }
    requires clients { S.clients_of sim.old ≡ length scripts.now + length ordered.now }
    requires steps { S.steps sim.old ≡ n }
    requires limit { n < MAX_FRAMES }
    ensures world { sim.new ≡ S.after sim.old
        (frame_at (script_columns scripts.now) n ++ ordered.now) }
    ensures clients { S.clients_of sim.new ≡ S.clients_of sim.old }
    ensures steps { S.steps sim.new ≡ S.steps sim.old + 1 }
{
    let _clients = sim.clients();
    frame.clear();
    for own in taken {
        own.add_to(n, frame);
    }
    add_entries(frame, ordered);
    sim.step(frame);
}

/// Adds these entries to a frame with room for them.
fn add_entries(frame: &mut Frame, entries: &Frame)
    requires { length frame.old + length entries.now ≤ MAX_CLIENTS }
    ensures { frame.new ≡ frame.old ++ entries.now }
{
    for i in 0..entries.len() {
        add_entry(frame, entries.get(i));
    }
}

/// Adds an entry to a frame with room for it, or a departure.
fn add_entry(frame: &mut Frame, entry: Option<&Entry>)
    requires { length frame.old < MAX_CLIENTS }
    ensures { frame.new ≡ frame.old ++ or_leave (option_copied entry.entry) ∷ [] }
{
    match entry {
        Some(Entry::Play(orders)) => frame.push_play(orders.as_slice()),
        _ => frame.push(Entry::Leave),
    }
}

/// Takes more plays of each client of whom frame `n` wasn't taken. The pass has seen it of each.
fn take_more<R: Wait>(
    rt: &R,
    alloc: Global,
    table: &FrameTable,
    scripts: &Scripts,
    pass: &mut Pass,
    n: u32,
    taken: &mut [Taken],
) -> Result<(), NoMemory>
    requires pass { IsLocalPass scripts.now table.now pass.old }
    requires knows { KnowsAllSeen scripts.now pass.old }
    requires seen { (c : ℕ) → c < length scripts.now → HasSeen (standing pass.old c).reach n }
    requires taken { AreTaken scripts.now taken.old n }
    ensures pass { IsLocalPass scripts.now table.now pass.new }
    ensures share { (view_of pass.new).share ≡ (view_of pass.old).share }
    ensures knows { OnOk result (KnowsAllSeen scripts.now pass.new) }
    ensures taken { OnOk result (AreTaken scripts.now taken.new n) }
    ensures fed { OnOk result ((plays : ℕ → List (List Order)) →
        HasFedAll (length scripts.now) table.now plays pass.old →
        HasFedAll (length scripts.now) table.now plays pass.new) }
{
    for c in 0..scripts.clients() {
        take_client(
            rt,
            alloc,
            table,
            scripts,
            pass,
            c,
            n,
            &mut taken[c as usize],
        )?;
    }
    Ok(())
}

/// Takes more plays of client `c`, if frame `n` wasn't taken, which the pass has seen.
fn take_client<R: Wait>(
    rt: &R,
    alloc: Global,
    table: &FrameTable,
    scripts: &Scripts,
    pass: &mut Pass,
    c: u8,
    n: u32,
    own: &mut Taken,
) -> Result<(), NoMemory>
    requires pass { IsLocalPass scripts.now table.now pass.old }
    requires knows { KnowsAllSeen scripts.now pass.old }
    requires client { c < length scripts.now }
    requires seen { HasSeen (standing pass.old c).reach n }
    requires own { IsTaken (plays_of scripts.now c) own.old }
    requires from { own.old.from ≤ n }
    ensures pass { IsLocalPass scripts.now table.now pass.new }
    ensures knows { OnOk result (KnowsAllSeen scripts.now pass.new) }
    ensures others { OnOk result (OthersStay c (view_of pass.old) (view_of pass.new)) }
    ensures share { (view_of pass.new).share ≡ (view_of pass.old).share }
    ensures own { OnOk result (IsTaken (plays_of scripts.now c) own.new) }
    ensures from { OnOk result (own.new.from ≤ n) }
{
    if own.left || own.has_play(n) {
        return Ok(());
    }
    let plays = table.take_plays(rt, alloc, pass, c, n, MOST_AT_ONCE)?;
    own.hold(n, plays);
    Ok(())
}
