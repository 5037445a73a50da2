ghost use Rattle.std.specs.Prelude.{◌≡◌, ◌≤◌, ℕ, List, Ok, IfOk};
ghost use Rattle.command_answers.specs.Answer.{reply_of};
ghost use Rattle.command_answers.specs.Stop.{ReturnsStep};
ghost use Rattle.game_orders.specs.declared.limits.TheConstants.{MAX_FRAMES};
ghost use Rattle.game_save.specs.ReadSave.{read_save_of};
ghost use Rattle.game_save.specs.SaveBytes.{save_bytes};
ghost use Rattle.replay_file.specs.Reading.{read_of};
ghost use Rattle.replay_file.specs.ValidReplay.{IsValidReplay};
ghost use Rattle.replay_run.specs.Rerun.{frame_count};
ghost use Rattle.save_commands.specs.Continuing.{Continues};
ghost use Rattle.save_commands.specs.Saves.{save_bytes_at, save_step, saved_at, saved_of};
ghost use Rattle.save_commands.specs.Saves.{saved_reply};

use crate::fitting::check_frames;
use crate::game_world::GameWorld;
use crate::text::saved_text;
use base::NoMemory;
use command_answers::{Answer, DONE, FileBytes, Stop};
use frame_core::Maker;
use game_save::write_lent_save;
use replay_commands::{MarkedGame, read_replay_file};
use replay_file::Replay;
use replay_run::{a_resumed_run_gives_the_same, world_after};
use std::alloc::Global;
use tick_core::{Game, GameMaker};

/// The save of a game of at most `MAX_FRAMES` steps, with this rules number, spelled from what the
/// game lends. Reading it gives the game's world and steps.
fn save_of(alloc: Global, number: u64, game: &Game) -> Result<Vec<u8>, NoMemory>
    requires { game.now.steps ≤ MAX_FRAMES }
    ensures saves { IfOk result
        (λ bytes. bytes.items ≡ save_bytes number game.now.steps game.now.world) }
    ensures again { IfOk result (λ bytes. read_save_of number game.now.setup bytes.items
        ≡ Ok (saved_of game.now)) }
{
    // by its clause the world is valid
    let _head = game.head();
    write_lent_save(
        alloc,
        game.rules(),
        game.map(),
        number,
        game.step_count(),
        &GameWorld { game },
    )
}

/// The save of the world after the first `frames` frames of a replay, which has so many.
#[tactic(auto, using(replay_file::proofs::WholeLemmas::few_clients))]
fn save_after(
    alloc: Global,
    frames: u32,
    maker: &GameMaker,
    r: &Replay,
) -> Result<Vec<u8>, NoMemory>
    requires valid { IsValidReplay r.now }
    requires few { frames ≤ frame_count r.now }
    ensures saves { IfOk result
        (λ bytes. bytes.items ≡ save_bytes_at r.now.rules frames maker.now r.now) }
    ensures again { IfOk result (λ bytes. read_save_of r.now.rules maker.now bytes.items
        ≡ Ok (saved_at maker.now frames r.now)) }
{
    let opening = maker.without_kept_hashes()?.make(alloc, r.seed, r.clients)?;
    let game = world_after(opening, r, frames);
    save_of(alloc, r.rules, &game)
}

/// What is answered to `save`, of the replay of a file, which has so many frames.
fn answer_save<'a>(
    alloc: Global,
    frames: u32,
    to: &'a str,
    maker: &GameMaker,
    r: &Replay,
) -> Result<Answer<'a>, NoMemory>
    requires valid { IsValidReplay r.now }
    requires few { frames ≤ frame_count r.now }
    ensures reply { IfOk result (λ answer. reply_of answer
        ≡ saved_reply to.now frames (save_bytes_at r.now.rules frames maker.now r.now)) }
    ensures continues { (bytes : List ℕ) → read_of r.now.rules bytes ≡ Ok r.now →
        IfOk result (λ answer. Continues r.now.rules maker.now frames bytes (reply_of answer).write) }
{
    a_resumed_run_gives_the_same::<MarkedGame>();
    let bytes = save_after(alloc, frames, maker, r)?;
    let text = saved_text(alloc, frames, bytes.len())?;
    Ok(Answer {
        status: DONE,
        text: text.into_bytes(),
        write: Some(FileBytes { name: to, bytes }),
    })
}

/// The answer to `save`: the file `to` is to hold the save of the world after the first `frames`
/// frames of the replay of a file with this name, run over the opening game that the maker makes of
/// its seed and clients. No mark is compared. The file is refused as `replay` refuses it, and then
/// with `TooFewFrames` exactly where it has fewer frames. No read fails here.
pub fn save_answer<'a>(
    alloc: Global,
    name: &'a str,
    frames: u32,
    to: &'a str,
    rules: u64,
    maker: &GameMaker,
    bytes: &[u8],
) -> Result<Answer<'a>, Stop<'a>>
    ensures reply { ReturnsStep result reply_of
        (save_step name.now frames to.now rules maker.now bytes.now) }
    ensures continues { IfOk result
        (λ answer. Continues rules maker.now frames bytes.now (reply_of answer).write) }
{
    let r = read_replay_file(alloc, name, rules, bytes)?;
    check_frames(name, frames, &r)?;
    Ok(answer_save(alloc, frames, to, maker, &r)?)
}
