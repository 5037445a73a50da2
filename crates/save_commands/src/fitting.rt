//! Whether a replay fits what is asked of it.
ghost use Rattle.std.specs.Prelude.{◌≡◌};
ghost use Rattle.command_answers.specs.Stop.{ReturnsStep};
ghost use Rattle.replay_file.specs.ValidReplay.{IsValidReplay};
ghost use Rattle.replay_run.specs.Rerun.{frame_count};
ghost use Rattle.save_commands.specs.Refusals.{of_match, with_frames};

use command_answers::Stop;
use game_save::Saved;
use replay_file::Replay;
use replay_run::frame_count;

/// Refuses a replay, whose file has this name, exactly where it has fewer frames.
pub(crate) fn check_frames<'a>(name: &'a str, frames: u32, r: &Replay) -> Result<(), Stop<'a>>
    requires { IsValidReplay r.now }
    ensures { ReturnsStep result (λ _. r.now) (with_frames name.now frames r.now) }
{
    if frame_count(r) < frames {
        return Err(Stop::Refused {
            name,
            place: 0,
            cause: "TooFewFrames",
        });
    }
    Ok(())
}

/// Refuses a replay, whose file has this name, exactly where the save has other clients or another
/// seed.
pub(crate) fn check_match<'a>(name: &'a str, saved: &Saved, r: &Replay) -> Result<(), Stop<'a>>
    ensures { ReturnsStep result (λ _. r.now) (of_match name.now saved.now r.now) }
{
    if r.clients != saved.world.cash.clients() || r.seed != saved.world.seed {
        return Err(Stop::Refused {
            name,
            place: 0,
            cause: "OtherMatch",
        });
    }
    Ok(())
}
