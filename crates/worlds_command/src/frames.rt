//! The worlds of a replay, printed while they pass.
ghost use Rattle.std.specs.Prelude.{◌≡◌, ◌≤◌, ◌+◌, ◌++◌, string_bytes, IsNone, OnOk};
ghost use Rattle.replay_file.specs.ValidReplay.{IsValidReplay};
ghost use Rattle.replay_run.specs.Playing.{played};
ghost use Rattle.replay_run.specs.Rerun.{frame_count};
ghost use Rattle.tick_core.specs.Game.{game_after, game_clients, game_steps};
ghost use Rattle.world_text.specs.Printing.{state_of, Prints};
ghost use Rattle.worlds_command.specs.Chosen.{count_from, count_if_chosen, text_if_chosen};
ghost use Rattle.worlds_command.specs.Chosen.{texts_from};
ghost use Rattle.worlds_command.specs.Worlds.{frames_line, game_lines};

use crate::chosen::Chosen;
use crate::prepared::is_chosen;
use base::NoMemory;
use drill::add_hash;
use frame_core::Sim;
use game_io::Sink;
use replay_file::Replay;
use replay_run::Playback;
use std::fmt::Write;
use tick_core::Game;
use world_text::{Printer, print_world};

/// Prints the chosen worlds of a valid replay by rising number of frames, of which it has as many
/// as the last chosen number. The opening game is one of its clients, and has made no step. Returns
/// how many worlds those are, if nothing went wrong. Once something did, no further frame is run.
pub(crate) fn print_chosen<K: Sink>(
    printer: &mut Printer,
    game: Game,
    r: &Replay,
    chosen: &Chosen,
    out: &mut K,
) -> u32
    requires valid { IsValidReplay r.now }
    requires clients { game_clients game ≡ r.now.clients }
    requires fresh { game_steps game ≡ 0 }
    requires within { chosen.now.last ≤ frame_count r.now }
    ensures prints { Prints
        (state_of printer.old (K.state out.old)) (state_of printer.new (K.state out.new))
        (texts_from (λ n. game_lines n (played game_after game r.now n)) chosen.now 0
        (chosen.now.last + 1)) }
    ensures counts { IsNone printer.new.kept.fault →
        result ≡ count_from chosen.now 0 (chosen.now.last + 1) }
{
    let mut playback = Playback::begin(game, r);
    let mut count = 0;
    for n in 0..chosen.last + 1 {
        if printer.has_failed() {
            return count;
        }
        count += print_if_chosen(printer, chosen, n, playback.world(), out);
        playback.step();
    }
    count
}

/// Prints the world after n frames, if it is chosen. Returns how many worlds that are.
fn print_if_chosen<K: Sink>(
    printer: &mut Printer,
    chosen: &Chosen,
    n: u32,
    game: &Game,
    out: &mut K,
) -> u32
    ensures prints { Prints
        (state_of printer.old (K.state out.old)) (state_of printer.new (K.state out.new))
        (text_if_chosen (λ n. game_lines n game.now) chosen.now n) }
    ensures counts { result ≡ count_if_chosen chosen.now n }
{
    if is_chosen(chosen, n) {
        print_game(printer, n, game, out);
        1
    } else {
        0
    }
}

/// Prints the line of a world and its text.
fn print_game<K: Sink>(printer: &mut Printer, frames: u32, game: &Game, out: &mut K)
    ensures { Prints
        (state_of printer.old (K.state out.old)) (state_of printer.new (K.state out.new))
        (game_lines frames game.now) }
{
    print_frames(printer, frames, game.hash(), out);
    print_world(printer, game, out);
}

/// Prints the line of a world.
fn print_frames<K: Sink>(printer: &mut Printer, frames: u32, hash: u64, out: &mut K)
    ensures { Prints
        (state_of printer.old (K.state out.old)) (state_of printer.new (K.state out.new))
        (frames_line frames hash) }
{
    printer.line.clear();
    let written = add_frames(&mut printer.line, frames, hash);
    printer.print_line(written, out);
}

/// Adds the line of a world: the number of frames before it, and its hash.
#[tactic(auto, unfolding(crate::specs::Worlds::frames_line))]
fn add_frames(text: &mut String, frames: u32, hash: u64) -> Result<(), NoMemory>
    ensures { OnOk result
        (string_bytes text.new ≡ string_bytes text.old ++ frames_line frames hash) }
{
    write!(text, "frames {frames} hash ")?;
    add_hash(text, hash)?;
    writeln!(text)
}
