//! The replay of a file, and which of its worlds are printed.
ghost use Rattle.std.specs.Prelude.{◌≡◌, ◌≤◌, IfOk};
ghost use Rattle.command_answers.specs.Stop.{ReturnsStep};
ghost use Rattle.replay_file.specs.ValidReplay.{IsValidReplay};
ghost use Rattle.replay_run.specs.Rerun.{frame_count};
ghost use Rattle.worlds_command.specs.Chosen.{chosen_of, is_beyond, is_chosen};
ghost use Rattle.worlds_command.specs.Worlds.{chosen_step, fitting_step};

use crate::chosen::Chosen;
use command_answers::Stop;
use replay_commands::read_replay_file;
use replay_file::Replay;
use replay_run::frame_count;
use std::alloc::Global;

/// The replay of a file with this name, of a match with these rules, and which of its worlds are
/// printed. The file is refused with its first fault as `read_replay_file` has it, and then where
/// more frames are asked for than it has.
pub(crate) fn prepare<'a>(
    alloc: Global,
    name: &'a str,
    from: u32,
    to: Option<u32>,
    every: u32,
    rules: u64,
    bytes: &[u8],
) -> Result<(Replay, Chosen), Stop<'a>>
    ensures step { ReturnsStep result (λ made. made)
        (chosen_step name.now from to every rules bytes.now) }
    ensures valid { IfOk result (λ made. IsValidReplay made.0) }
    ensures within { IfOk result (λ made. made.1.last ≤ frame_count made.0) }
{
    let r = read_replay_file(alloc, name, rules, bytes)?;
    let frames = frame_count(&r);
    let chosen = choose(from, to, every, frames);
    if is_beyond(&chosen, frames) {
        return Err(Stop::Refused {
            name,
            place: 0,
            cause: "TooFewFrames",
        });
    }
    Ok((r, chosen))
}

/// The numbers that are asked for, of a replay of so many frames.
fn choose(from: u32, to: Option<u32>, every: u32, frames: u32) -> Chosen
    ensures { result ≡ chosen_of from to every frames }
{
    Chosen {
        from,
        last: to.unwrap_or(frames),
        every,
    }
}

/// Whether more frames are asked for than there are.
fn is_beyond(chosen: &Chosen, frames: u32) -> bool
    ensures { result ≡ is_beyond chosen.now frames }
{
    frames < chosen.from || frames < chosen.last
}

/// Whether the world after n frames is printed.
pub(crate) fn is_chosen(chosen: &Chosen, n: u32) -> bool
    ensures { result ≡ is_chosen chosen.now n }
{
    chosen.from <= n && n <= chosen.last && (n - chosen.from) % chosen.every.max(1) == 0
}
