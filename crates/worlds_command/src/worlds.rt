ghost use Rattle.std.specs.Prelude.{◌≡◌, ◌≤◌, ℕ, List, ◌++◌, string_bytes, IfOk, OnOk};
ghost use Rattle.game_io.specs.SinkState.{SinkState};
ghost use Rattle.command_answers.specs.Printing.{MayPrintReply};
ghost use Rattle.command_answers.specs.Reply.{done};
ghost use Rattle.command_answers.specs.Step.{ended};
ghost use Rattle.replay_file.specs.ValidReplay.{IsValidReplay};
ghost use Rattle.replay_run.specs.Rerun.{frame_count};
ghost use Rattle.tick_core.specs.Game.{game_clients, game_start, game_steps};
ghost use Rattle.world_text.specs.Printing.{state_of, IsPrinted, Prints};
ghost use Rattle.worlds_command.specs.Worlds.{last_lines, status_of, worlds_step};
ghost use Rattle.worlds_command.specs.Worlds.{worlds_text};

use crate::chosen::Chosen;
use crate::frames::print_chosen;
use crate::prepared::prepare;
use crate::setup_lines::print_setup;
use base::NoMemory;
use command_answers::{DONE, FAULT_WRITE, OUT_OF_MEMORY, print_stop};
use drill::add_end_line;
use frame_core::Maker;
use game_io::Sink;
use replay_file::Replay;
use std::alloc::Global;
use std::fmt::Write;
use tick_core::{Game, GameMaker};
use world_text::{PrintFault, Printer};

/// The command `worlds` over the bytes of a replay's file with this name, of a match with this
/// rules number: prints the kinds and the map, the world after each number of frames from `from` on
/// in steps of `every`, at most `to` or else all, and how many worlds those are. `every` 0 is as 1.
/// It returns:
///
/// - `DONE`, exactly the text was printed;
/// - `REFUSED_FILE`, the file is refused and that was printed: with its first fault, as
///   `read_replay` finds it, or with `TooFewFrames` where `from` or `to` is above its frames;
/// - `FAULT_WRITE`, a write failed, and a prefix of the text was printed;
/// - `OUT_OF_MEMORY`, a prefix was printed.
///
/// Beside the bytes and the replay that is read of them it takes memory for one world and a piece
/// of text, however long that replay is.
pub fn print_worlds<K: Sink>(
    alloc: Global,
    name: &str,
    from: u32,
    to: Option<u32>,
    every: u32,
    rules: u64,
    maker: &GameMaker,
    bytes: &[u8],
    out: &mut K,
) -> u8
    ensures prints { MayPrintReply
        (ended (worlds_step name.now from to every rules maker.now bytes.now) done) result
        (K.state out.old) (K.state out.new) }
    ensures later { (K.state out.old).faults ≤ (K.state out.new).faults }
{
    match prepare(alloc, name, from, to, every, rules, bytes) {
        Ok((r, chosen)) => print_replay(alloc, maker, &r, &chosen, out),
        Err(stop) => print_stop(alloc, stop, out),
    }
}

/// Prints the chosen worlds of a replay.
#[tactic(auto, using(crate::proofs::WorldsLemmas::nothing_printed))]
fn print_replay<K: Sink>(
    alloc: Global,
    maker: &GameMaker,
    r: &Replay,
    chosen: &Chosen,
    out: &mut K,
) -> u8
    requires valid { IsValidReplay r.now }
    requires within { chosen.now.last ≤ frame_count r.now }
    ensures prints { MayPrintReply (done (worlds_text maker.now r.now chosen.now)) result
        (K.state out.old) (K.state out.new) }
    ensures later { (K.state out.old).faults ≤ (K.state out.new).faults }
{
    match opening(alloc, maker, r) {
        Ok((printer, game)) => print_all(printer, game, maker, r, chosen, out),
        Err(_) => OUT_OF_MEMORY,
    }
}

/// A printer, and the opening game of a replay.
#[tactic(auto, using(replay_file::proofs::WholeLemmas::few_clients))]
fn opening(alloc: Global, maker: &GameMaker, r: &Replay) -> Result<(Printer, Game), NoMemory>
    requires { IsValidReplay r.now }
    ensures prints { IfOk result (λ made. (first : SinkState) (whole : List ℕ) →
        IsPrinted first (state_of made.0 first) whole whole) }
    ensures opens { IfOk result (λ made. made.1 ≡ game_start maker.now r.now.seed r.now.clients) }
    ensures clients { IfOk result (λ made. game_clients made.1 ≡ r.now.clients) }
    ensures fresh { IfOk result (λ made. game_steps made.1 ≡ 0) }
{
    let printer = Printer::create(alloc)?;
    let game = maker.make(alloc, r.seed, r.clients)?;
    Ok((printer, game))
}

/// Prints the chosen worlds of a replay by a new printer, over its opening game.
fn print_all<K: Sink>(
    mut printer: Printer,
    game: Game,
    maker: &GameMaker,
    r: &Replay,
    chosen: &Chosen,
    out: &mut K,
) -> u8
    requires valid { IsValidReplay r.now }
    requires within { chosen.now.last ≤ frame_count r.now }
    requires fresh_printer { (first : SinkState) (whole : List ℕ) →
        IsPrinted first (state_of printer first) whole whole }
    requires opens { game ≡ game_start maker.now r.now.seed r.now.clients }
    requires clients { game_clients game ≡ r.now.clients }
    requires fresh { game_steps game ≡ 0 }
    ensures prints { MayPrintReply (done (worlds_text maker.now r.now chosen.now)) result
        (K.state out.old) (K.state out.new) }
    ensures later { (K.state out.old).faults ≤ (K.state out.new).faults }
{
    print_setup(&mut printer, maker, out);
    let count = print_chosen(&mut printer, game, r, chosen, out);
    print_last(&mut printer, count, out);
    status_of(printer.finish(out))
}

/// The status of a text that was printed.
fn status_of(printed: Result<(), PrintFault>) -> u8
    ensures { result ≡ status_of printed }
{
    match printed {
        Ok(()) => DONE,
        Err(PrintFault::Write) => FAULT_WRITE,
        Err(PrintFault::NoMemory) => OUT_OF_MEMORY,
    }
}

/// Prints the last lines.
fn print_last<K: Sink>(printer: &mut Printer, count: u32, out: &mut K)
    ensures { Prints
        (state_of printer.old (K.state out.old)) (state_of printer.new (K.state out.new))
        (last_lines count) }
{
    printer.line.clear();
    let written = add_last(&mut printer.line, count);
    printer.print_line(written, out);
}

/// Adds the last lines: how many worlds were printed, and `end`.
#[tactic(auto, unfolding(crate::specs::Worlds::last_lines))]
fn add_last(text: &mut String, count: u32) -> Result<(), NoMemory>
    ensures { OnOk result
        (string_bytes text.new ≡ string_bytes text.old ++ last_lines count) }
{
    writeln!(text, "worlds {count}")?;
    add_end_line(text)
}
