ghost use Rattle.std.specs.Prelude.{◌≡◌, ◌≤◌, length};
ghost use Rattle.game_orders.specs.Order.{flag_number};
ghost use Rattle.rule_traits.specs.Traits.{has_trait};
ghost use Rattle.c_worlds.specs.Held.{made_in, told_of};
ghost use Rattle.c_worlds.specs.Kinds.{c_kind_of, first_traits, kind_told, last_traits};
ghost use Rattle.c_worlds.specs.Kinds.{name_told};
ghost use Rattle.c_worlds.specs.Told.{list_code, list_needed, list_out, one_code, one_out};

use crate::held::made_of;
use crate::room::copy_out;
use c_objects::{NONE, OK, Object, WRONG_OBJECT};
use rule_traits::{Armament, Costs, Harvester, Kind, Mobile, Refinery, Reveals, Trait};
use setup_files::Made;
use std::alloc::Global;

/// A kind of actor, as C reads it: 0 for each number of a trait that it has not, but 1 hit point.
#[repr(C)]
#[derive(Drop)]
pub struct CKind {
    /// A bit for each trait that it has: 1 Health, 2 Mobile, 4 Building, 8 Harvester, 16 Refinery,
    /// 32 Production, 64 Buildable, 128 Valued, 256 Armament, 512 RevealsShroud.
    pub traits: u32,
    /// Its hit points at full health.
    pub hp: u32,
    /// Its price in cash.
    pub cost: u32,
    /// Units that it moves in a turn, of which a cell has 1,024.
    pub speed: u32,
    /// How far it turns in a turn, in 1,024ths of the circle.
    pub turn: u32,
    /// What it costs to enter a clear cell, a road, rough ground and water: 0 to 10, 0 for never.
    pub costs: [u32; 4],
    /// How far it shoots, in units.
    pub range: u32,
    /// Hit points that a hit takes away at least.
    pub damage: u32,
    /// Up to so many more.
    pub spread: u32,
    /// Turns from one shot to the next.
    pub reload: u32,
    /// The most bales that it holds.
    pub capacity: u32,
    /// Turns that it loads a bale.
    pub load_delay: u32,
    /// Turns that it unloads a bale.
    pub unload_delay: u32,
    /// What it pays for a bale, in cash.
    pub value: u32,
    /// Turns that it takes to build one.
    pub duration: u32,
    /// How far it sees, in units.
    pub sight: u32,
}

/// Of a kind without `Mobile`.
const NO_MOBILE: Mobile = Mobile {
    speed: 0,
    turn: 0,
    costs: Costs {
        clear: 0,
        road: 0,
        rough: 0,
        water: 0,
    },
};

/// Of a kind without `Armament`.
const NO_ARMAMENT: Armament = Armament {
    range: 0,
    damage: 0,
    spread: 0,
    reload: 0,
};

/// Of a kind without `Harvester`.
const NO_HARVESTER: Harvester = Harvester {
    capacity: 0,
    load_delay: 0,
    unload_delay: 0,
};

/// 1 where a kind has a trait, and else 0.
fn flag(kind: &Kind, known: Trait) -> u32
    ensures value { result ≡ flag_number (has_trait kind.now known) }
    ensures most { result ≤ 1 }
{
    u32::from(kind.has(known))
}

fn first_traits(kind: &Kind) -> u32
    ensures value { result ≡ first_traits kind.now }
    ensures most { result ≤ 31 }
{
    flag(kind, Trait::Health)
        + 2 * flag(kind, Trait::Mobile)
        + 4 * flag(kind, Trait::Building)
        + 8 * flag(kind, Trait::Harvester)
        + 16 * flag(kind, Trait::Refinery)
}

fn last_traits(kind: &Kind) -> u32
    ensures value { result ≡ last_traits kind.now }
    ensures most { result ≤ 31 }
{
    flag(kind, Trait::Production)
        + 2 * flag(kind, Trait::Buildable)
        + 4 * flag(kind, Trait::Valued)
        + 8 * flag(kind, Trait::Armament)
        + 16 * flag(kind, Trait::RevealsShroud)
}

/// A kind as C reads it.
fn c_kind(kind: &Kind) -> CKind
    ensures { result ≡ c_kind_of kind.now }
{
    let mobile = kind.mobile.unwrap_or(NO_MOBILE);
    let armament = kind.armament.unwrap_or(NO_ARMAMENT);
    let harvester = kind.harvester.unwrap_or(NO_HARVESTER);
    let duration = match &kind.buildable {
        Some(buildable) => buildable.duration,
        None => 0,
    };
    CKind {
        traits: first_traits(kind) + 32 * last_traits(kind),
        hp: kind.hp(),
        cost: kind.cost(),
        speed: mobile.speed,
        turn: u32::from(mobile.turn),
        costs: [
            u32::from(mobile.costs.clear),
            u32::from(mobile.costs.road),
            u32::from(mobile.costs.rough),
            u32::from(mobile.costs.water),
        ],
        range: armament.range,
        damage: armament.damage,
        spread: armament.spread,
        reload: u32::from(armament.reload),
        capacity: u32::from(harvester.capacity),
        load_delay: u32::from(harvester.load_delay),
        unload_delay: u32::from(harvester.unload_delay),
        value: kind.refinery.unwrap_or(Refinery { value: 0 }).value,
        duration: u32::from(duration),
        sight: kind.reveals.unwrap_or(Reveals { range: 0 }).range,
    }
}

/// Writes a kind, where the rules have its number.
fn kind_to(made: &Made, kind: u32, out: &mut CKind) -> u32
    ensures code { result ≡ one_code (kind_told kind made.now) }
    ensures out { out.new ≡ one_out (kind_told kind made.now) out.old }
{
    match made.maker.rules().kinds().get(kind as usize) {
        Some(kind) => {
            *out = c_kind(kind);
            OK
        }
        None => NONE,
    }
}

/// A kind of a setup that was read. `NONE` exactly where its rules have no such number.
pub fn setup_kind(setup: &mut Object, alloc: Global, kind: u32, out: &mut CKind) -> u32
    ensures code { result ≡ one_code (told_of (made_in setup.old.held.held) (kind_told kind)) }
    ensures out { out.new
        ≡ one_out (told_of (made_in setup.old.held.held) (kind_told kind)) out.old }
    ensures stays { setup.new.held.held ≡ setup.old.held.held }
{
    let Some(kept) = setup.take(alloc) else {
        return WRONG_OBJECT;
    };
    let code = match made_of(&kept) {
        Some(made) => kind_to(made, kind, out),
        None => WRONG_OBJECT,
    };
    setup.put(kept);
    code
}

/// Writes the name of a kind and its length, where the rules have its number.
fn name_to(made: &Made, kind: u32, out: &mut [u8], needed: &mut usize) -> u32
    ensures code { result ≡ list_code (name_told kind made.now) (length out.old) }
    ensures out { out.new ≡ list_out (name_told kind made.now) out.old }
    ensures needed { needed.new ≡ list_needed (name_told kind made.now) needed.old }
{
    match made.maker.rules().kinds().get(kind as usize) {
        Some(kind) => copy_out(kind.name.as_str().as_bytes(), out, needed),
        None => NONE,
    }
}

/// The name of a kind of a setup that was read, as UTF-8 without an end byte, and its length.
pub fn setup_kind_name(
    setup: &mut Object,
    alloc: Global,
    kind: u32,
    out: &mut [u8],
    needed: &mut usize,
) -> u32
    ensures code { result
        ≡ list_code (told_of (made_in setup.old.held.held) (name_told kind)) (length out.old) }
    ensures out { out.new
        ≡ list_out (told_of (made_in setup.old.held.held) (name_told kind)) out.old }
    ensures needed { needed.new
        ≡ list_needed (told_of (made_in setup.old.held.held) (name_told kind)) needed.old }
    ensures stays { setup.new.held.held ≡ setup.old.held.held }
{
    let Some(kept) = setup.take(alloc) else {
        return WRONG_OBJECT;
    };
    let code = match made_of(&kept) {
        Some(made) => name_to(made, kind, out, needed),
        None => WRONG_OBJECT,
    };
    setup.put(kept);
    code
}
