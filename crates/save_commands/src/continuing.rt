ghost use Rattle.std.specs.Prelude.{◌≡◌, ◌≤◌, IfOk};
ghost use Rattle.command_answers.specs.Answer.{reply_of};
ghost use Rattle.command_answers.specs.Stop.{ReturnsStep};
ghost use Rattle.game_model.specs.ValidWorld.{IsSavedWorld};
ghost use Rattle.game_model.specs.World.{clients_of};
ghost use Rattle.replay_file.specs.ValidReplay.{IsValidReplay};
ghost use Rattle.replay_run.specs.Rerun.{frame_count};
ghost use Rattle.save_commands.specs.Saves.{continue_step, continued_reply};

use crate::fitting::{check_frames, check_match};
use base::NoMemory;
use command_answers::{Answer, Stop};
use game_save::Saved;
use replay_commands::{MarkedGame, read_replay_file, read_save_file, replayed_answer};
use replay_file::Replay;
use replay_run::run_replay_from;
use std::alloc::Global;
use tick_core::GameMaker;

/// What is answered to `continue`, of the save and the replay of two files, which fit each other.
fn answer_continue(
    alloc: Global,
    maker: &GameMaker,
    saved: &Saved,
    r: &Replay,
) -> Result<Answer<'static>, NoMemory>
    requires valid { IsValidReplay r.now }
    requires saved { IsSavedWorld maker.now saved.now.frames saved.now.world }
    requires clients { r.now.clients ≡ clients_of saved.now.world }
    requires few { saved.now.frames ≤ frame_count r.now }
    ensures { IfOk result (λ answer. reply_of answer ≡ continued_reply maker.now saved.now r.now) }
{
    let game = maker.resume(alloc, saved.frames, &saved.world)?;
    let run = run_replay_from(MarkedGame::of(game), saved.frames, r);
    replayed_answer(alloc, &run)
}

/// The answer to `continue`: the game goes on from the save of the file `save` with the later
/// frames of the replay of the file `name`, and what that gives is answered as `replay` answers it.
/// The number of frames that it prints is that of all frames of the replay. Compared are the marks
/// that have the save's frames or more before them. A fault of the save comes before those of the
/// replay, whose file is refused as `replay` refuses it, then with `OtherMatch` exactly where its
/// clients or its seed are not the save's, then with `TooFewFrames` exactly where it has fewer
/// frames than the save. No read fails here.
pub fn continue_answer<'a>(
    alloc: Global,
    save: &'a str,
    name: &'a str,
    rules: u64,
    maker: &GameMaker,
    save_bytes: &[u8],
    bytes: &[u8],
) -> Result<Answer<'static>, Stop<'a>>
    ensures { ReturnsStep result reply_of
        (continue_step save.now name.now rules maker.now save_bytes.now bytes.now) }
{
    let saved = read_save_file(alloc, save, rules, maker, save_bytes)?;
    let r = read_replay_file(alloc, name, rules, bytes)?;
    check_match(name, &saved, &r)?;
    check_frames(name, saved.frames, &r)?;
    Ok(answer_continue(alloc, maker, &saved, &r)?)
}
