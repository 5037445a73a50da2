ghost use Rattle.std.specs.Prelude.{◌≡◌, IfOk};
ghost use Rattle.command_answers.specs.Stop.{ReturnsStep};
ghost use Rattle.replay_file.specs.Reading.{read_of};
ghost use Rattle.replay_file.specs.ValidReplay.{IsValidReplay};
ghost use Rattle.replay_commands.specs.Refusals.{read_step};

use crate::refusal::replay_stop;
use command_answers::Stop;
use replay_file::{Replay, read_replay};
use std::alloc::Global;

/// The replay of a file with this name, of a match with this rules number. The file is refused with
/// its first fault, the place of it and the cause, as `read_replay` finds it. Out of memory is the
/// only other stop.
pub fn read_replay_file<'a>(
    alloc: Global,
    name: &'a str,
    rules: u64,
    bytes: &[u8],
) -> Result<Replay, Stop<'a>>
    ensures read { ReturnsStep result (λ r. r) (read_step name.now (read_of rules bytes.now)) }
    ensures valid { IfOk result IsValidReplay }
    ensures rules { IfOk result (λ r. r.rules ≡ rules) }
{
    match read_replay(alloc, bytes, rules) {
        Ok(r) => Ok(r),
        Err(fault) => Err(replay_stop(name, &fault)),
    }
}
