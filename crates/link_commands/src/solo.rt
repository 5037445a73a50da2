//! The script of one client.
ghost use Rattle.std.specs.Prelude.{◌≡◌, ◌≤◌, length, IfOk};
ghost use Rattle.drill_words.specs.declared.limits.TheConstants.{MAX_DRILL_BYTES};
ghost use Rattle.command_answers.specs.Stop.{ReturnsStep};
ghost use Rattle.link_commands.specs.SoloScript.{solo_step};

use base::NoMemory;
use command_answers::{Stop, drill_stop};
use drill_words::{MAX_DRILL_BYTES, read_script};
use frame_core::PlayList;
use game_orders::Orders;
use std::alloc::Global;

/// What the client of a script plays, frame by frame; or the refusal of the script, whose file has
/// this name, for its first fault. The script has one client; its seed is not looked at.
pub fn read_solo<'a>(alloc: Global, name: &'a str, bytes: &[u8]) -> Result<Vec<Orders>, Stop<'a>>
    requires { length bytes.now ≤ MAX_DRILL_BYTES }
    ensures { ReturnsStep result (λ plays. plays.items) (solo_step name.now bytes.now) }
{
    match read_script(alloc, bytes, true) {
        Ok((_seed, scripts)) => Ok(copied(alloc, scripts.plays(0))?),
        Err(fault) => Err(drill_stop(name, &fault)),
    }
}

/// The same plays, each with its orders in place.
fn copied(alloc: Global, plays: &PlayList) -> Result<Vec<Orders>, NoMemory>
    ensures { IfOk result (λ all. all.items ≡ plays.now) }
{
    let mut all = Vec::new(alloc);
    for n in 0..plays.len() {
        all.push(plays.get(n))?;
    }
    Ok(all)
}
