ghost use Rattle.replay_commands.specs.Refusals.{IsReplayStop};

use command_answers::Stop;
use replay_file::ReplayFault;

/// Refuses a faulty replay, whose file has this name. Out of memory is no fault of the file.
pub(crate) fn replay_stop<'a>(name: &'a str, fault: &ReplayFault) -> Stop<'a>
    ensures { IsReplayStop name.now fault.now result }
{
    match fault.place() {
        Some(place) => Stop::Refused {
            name,
            place,
            cause: fault.cause(),
        },
        None => Stop::NoMemory,
    }
}
