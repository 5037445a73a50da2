ghost use Rattle.std.specs.Prelude.{◌≡◌, ◌+◌, ◌<◌, ◌^◌, max};
ghost use Rattle.rule_traits.specs.Rules.{hp_of};
ghost use Rattle.game_model.specs.Kinds.{capacity_in, duration_in, gathers, is_unit};
ghost use Rattle.game_model.specs.Kinds.{load_delay_in, reload_in, unload_delay_in};
ghost use Rattle.game_save.specs.ActorReading.{build_counts, leg_flags};

use game_model::MAX_BUILDS;
use rule_traits::{Armament, Buildable, Harvester, Kind};

/// Whether it gathers ore: it moves and has `Harvester`.
pub(crate) fn gathers(kind: &Kind) -> bool
    ensures { result ≡ gathers kind.now }
{
    kind.moves() && kind.harvester.is_some()
}

/// Whether it is a unit that can be built: it has `Buildable` and moves.
pub(crate) fn is_unit(kind: &Kind) -> bool
    ensures { result ≡ is_unit kind.now }
{
    kind.buildable.is_some() && kind.moves()
}

/// How many flags of a leg it may have, from 0 on.
pub(crate) fn leg_flags(kind: &Kind) -> u64
    ensures { result ≡ leg_flags kind.now }
{
    if kind.moves() { 2 } else { 1 }
}

/// How many numbers of builds it may have, from 0 on.
pub(crate) fn build_counts(kind: &Kind) -> u64
    ensures { result ≡ build_counts kind.now }
{
    if kind.production.is_some() {
        MAX_BUILDS as u64 + 1
    } else {
        1
    }
}

/// The most bales that it holds.
fn capacity(harvester: Option<Harvester>) -> u16
    ensures { result ≡ capacity_in harvester }
{
    match harvester {
        Some(harvester) => harvester.capacity,
        None => 0,
    }
}

/// The end of the bales that it may hold.
pub(crate) fn load_end(kind: &Kind) -> u64
    ensures { result ≡ capacity_in kind.now.harvester + 1 }
{
    u64::from(capacity(kind.harvester)) + 1
}

/// The turns from shot to shot.
fn reload(armament: Option<Armament>) -> u16
    ensures { result ≡ reload_in armament }
{
    match armament {
        Some(armament) => armament.reload,
        None => 0,
    }
}

/// The end of the turns until it can fire again.
pub(crate) fn reload_end(kind: &Kind) -> u64
    ensures { result ≡ reload_in kind.now.armament + 1 }
{
    u64::from(reload(kind.armament)) + 1
}

/// The end of its hit points.
pub(crate) fn health_end(kind: &Kind) -> u64
    ensures { result ≡ hp_of kind.now + 1 }
{
    u64::from(kind.hp()) + 1
}

/// The turns that it takes to load a bale.
pub(crate) fn load_delay(kind: &Kind) -> u16
    ensures { result ≡ load_delay_in kind.now.harvester }
{
    match kind.harvester {
        Some(harvester) => harvester.load_delay,
        None => 0,
    }
}

/// The turns that it takes to unload a bale.
pub(crate) fn unload_delay(kind: &Kind) -> u16
    ensures { result ≡ unload_delay_in kind.now.harvester }
{
    match kind.harvester {
        Some(harvester) => harvester.unload_delay,
        None => 0,
    }
}

/// The turns that it takes to build one.
fn duration(buildable: &Option<Buildable>) -> u16
    ensures { result ≡ duration_in buildable.now }
{
    match buildable {
        Some(buildable) => buildable.duration,
        None => 0,
    }
}

/// The end of the turns that are left to build one.
pub(crate) fn left_end(kind: &Kind) -> u64
    ensures { result ≡ duration_in kind.now.buildable + 1 }
{
    u64::from(duration(&kind.buildable)) + 1
}

/// The end of a timer of so many turns, of which there is at least one.
pub(crate) fn timer_end(delay: u16) -> u64
    ensures { result ≡ max 1 delay }
{
    u64::from(delay).max(1)
}
