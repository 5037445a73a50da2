ghost use Rattle.std.specs.Prelude.{◌≡◌, IfOk};
ghost use Rattle.command_answers.specs.Stop.{ReturnsStep};
ghost use Rattle.game_model.specs.ValidWorld.{IsSavedWorld};
ghost use Rattle.game_save.specs.ReadSave.{read_save_of};
ghost use Rattle.replay_commands.specs.SaveRefusals.{IsSaveStop, read_save_step};

use command_answers::Stop;
use game_save::{SaveFault, Saved, read_save};
use std::alloc::Global;
use tick_core::GameMaker;

/// Refuses a faulty save, whose file has this name. Out of memory is no fault of the file.
fn save_stop<'a>(name: &'a str, fault: &SaveFault) -> Stop<'a>
    ensures { IsSaveStop name.now fault.now result }
{
    match fault.place() {
        Some(place) => Stop::Refused {
            name,
            place,
            cause: fault.cause(),
        },
        None => Stop::NoMemory,
    }
}

/// The save of a file with this name, over the maker's rules and map and with this rules number.
/// The file is refused with its first fault, the place of it and the cause, as `read_save` finds
/// it. Out of memory is the only other stop.
pub fn read_save_file<'a>(
    alloc: Global,
    name: &'a str,
    rules: u64,
    maker: &GameMaker,
    bytes: &[u8],
) -> Result<Saved, Stop<'a>>
    ensures read { ReturnsStep result (λ saved. saved)
        (read_save_step name.now (read_save_of rules maker.now bytes.now)) }
    ensures valid { IfOk result (λ saved. IsSavedWorld maker.now saved.frames saved.world) }
{
    match read_save(alloc, bytes, rules, maker.rules(), maker.map()) {
        Ok(saved) => Ok(saved),
        Err(fault) => Err(save_stop(name, &fault)),
    }
}
