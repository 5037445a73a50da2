ghost use Rattle.std.specs.Prelude.{◌≡◌, ◌+◌, ◌-◌, ◌^◌, ◌<◌, nat_le, false};
ghost use Rattle.game_model.specs.Grid.{HasSize, IsOn, with_cell};
ghost use Rattle.game_model.specs.OreRows.{has_ore};
ghost use Rattle.game_model.specs.Kinds.{capacity_in, load_delay_in, unload_delay_in};
ghost use Rattle.game_model.specs.Kinds.{bale_value_in, kind_of};
ghost use Rattle.game_tick.specs.Harvesting.{is_beside};
ghost use Rattle.game_tick.specs.Nearest.{ore_at};

use game_model::Ore;
use rule_traits::{Harvester, Rules};
use world_units::CPos;

/// How actors of the kind gather ore. `None`: the kind has not `Harvester`.
fn harvester_of(rules: &Rules, kind: u16) -> Option<Harvester>
    ensures { result ≡ (kind_of rules.now kind).harvester }
{
    match rules.get(kind) {
        Some(kind) => kind.harvester,
        None => None,
    }
}

/// The most bales that actors of the kind hold: none without `Harvester`.
fn capacity_of(rules: &Rules, kind: u16) -> u16
    ensures { result ≡ capacity_in (kind_of rules.now kind).harvester }
{
    match harvester_of(rules, kind) {
        Some(harvester) => harvester.capacity,
        None => 0,
    }
}

/// The turns that a bale takes to load: none without `Harvester`.
fn load_delay_of(rules: &Rules, kind: u16) -> u16
    ensures { result ≡ load_delay_in (kind_of rules.now kind).harvester }
{
    match harvester_of(rules, kind) {
        Some(harvester) => harvester.load_delay,
        None => 0,
    }
}

/// The turns that a bale takes to unload: none without `Harvester`.
fn unload_delay_of(rules: &Rules, kind: u16) -> u16
    ensures { result ≡ unload_delay_in (kind_of rules.now kind).harvester }
{
    match harvester_of(rules, kind) {
        Some(harvester) => harvester.unload_delay,
        None => 0,
    }
}

/// What a bale is worth at actors of the kind: nothing without `Refinery`.
pub(crate) fn bale_value_of(rules: &Rules, kind: u16) -> u32
    ensures { result ≡ bale_value_in (kind_of rules.now kind).refinery }
{
    match rules.get(kind) {
        Some(kind) => match kind.refinery {
            Some(refinery) => refinery.value,
            None => 0,
        },
        None => 0,
    }
}

/// Whether an actor of the kind with so many bales holds no more.
pub(crate) fn is_full(rules: &Rules, kind: u16, load: u16) -> bool
    ensures value { result ≡ nat_le (capacity_in (kind_of rules.now kind).harvester) load }
    ensures room { result ≡ false → load < 2 ^ 16 - 1 }
{
    load >= capacity_of(rules, kind)
}

/// Whether the turn after so many is the last of a delay.
fn is_over(timer: u16, delay: u16) -> bool
    ensures value { result ≡ nat_le delay (timer + 1) }
    ensures room { result ≡ false → timer < 2 ^ 16 - 1 }
{
    u32::from(delay) <= u32::from(timer) + 1
}

/// Whether the turn after so many is the last that a bale takes to load.
pub(crate) fn is_loaded(rules: &Rules, kind: u16, timer: u16) -> bool
    ensures value { result ≡ nat_le (load_delay_in (kind_of rules.now kind).harvester) (timer + 1) }
    ensures room { result ≡ false → timer < 2 ^ 16 - 1 }
{
    is_over(timer, load_delay_of(rules, kind))
}

/// Whether the turn after so many is the last that a bale takes to unload.
pub(crate) fn is_unloaded(rules: &Rules, kind: u16, timer: u16) -> bool
    ensures value { result
        ≡ nat_le (unload_delay_in (kind_of rules.now kind).harvester) (timer + 1) }
    ensures room { result ≡ false → timer < 2 ^ 16 - 1 }
{
    is_over(timer, unload_delay_of(rules, kind))
}

/// Whether the two are one cell or neighbours.
pub(crate) fn is_beside(p: CPos, q: CPos) -> bool
    ensures { result ≡ is_beside p q }
{
    p.x.abs_diff(q.x) <= 1 && p.y.abs_diff(q.y) <= 1
}

/// Whether a cell has ore.
pub(crate) fn has_ore(ore: &Ore, p: CPos) -> bool
    requires { IsOn ore.now.width ore.now.height p }
    ensures { result ≡ has_ore (ore_at ore.now p) }
{
    ore.get(p) > 0
}

/// Takes a bale from a cell, where there is one.
pub(crate) fn take_bale(ore: &mut Ore, p: CPos)
    requires { IsOn ore.old.width ore.old.height p }
    ensures { ore.new ≡ with_cell ore.old p (ore_at ore.old p - 1) }
{
    let left = ore.get(p).saturating_sub(1);
    ore.set(p, left);
}
