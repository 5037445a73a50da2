ghost use Rattle.std.specs.Prelude.{◌≡◌, IfOk};
ghost use Rattle.drill.specs.Drilled.{IsLeftBy};
ghost use Rattle.drill_words.specs.Drill.{plain_of};
ghost use Rattle.game_model.specs.Setup.{Setup};
ghost use Rattle.replay_commands.specs.Matches.{game_match};
ghost use Rattle.replay_commands.specs.Records.{drill_record, ReplaysDrill};

use base::NoMemory;
use drill::{Drill, Drilled};
use replay_run::{a_record_gives_the_match, record_of};
use std::alloc::Global;
use tick_core::Game;

/// The bytes of the replay of a drill, of a match with this rules number: the frames that the
/// server ticked, each with a mark after it. `drilled` is what a run of the drill over some rules
/// and a map left. Over the same ones [`replay_answer`](crate::replay_answer) runs the bytes, finds
/// no differing mark, and has the server's world in the end. Out of memory is the only error.
pub fn record_bytes(
    alloc: Global,
    rules: u64,
    drill: &Drill,
    drilled: &Drilled<Game>,
) -> Result<Vec<u8>, NoMemory>
    ensures record { (setup : Setup) →
        IsLeftBy (game_match setup (plain_of drill.now)) drill.now.events drilled.now →
        IfOk result (λ bytes. bytes.items ≡ drill_record rules setup (plain_of drill.now)) }
    ensures again { (setup : Setup) →
        IsLeftBy (game_match setup (plain_of drill.now)) drill.now.events drilled.now →
        IfOk result (λ bytes. ReplaysDrill rules setup (plain_of drill.now) bytes.items) }
{
    a_record_gives_the_match::<Game>();
    record_of(alloc, rules, drill.seed, &drilled.server)
}
