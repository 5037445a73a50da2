ghost use Rattle.std.specs.Prelude.{◌≡◌, nat_le, IfSome};
ghost use Rattle.world_units.specs.Cells.{dist_sq_of, square};
ghost use Rattle.rule_traits.specs.Rules.{moves};
ghost use Rattle.rule_traits.specs.ValidRules.{IsValidArmament};
ghost use Rattle.game_model.specs.Kinds.{reload_in, kind_of, range_in};

use rule_traits::{Armament, Rules};
use world_units::{CPos, dist_sq};

/// How actors of the kind shoot. `None`: the kind has not `Armament`.
pub(crate) fn armament_of(rules: &Rules, kind: u16) -> Option<Armament>
    ensures value { result ≡ (kind_of rules.now kind).armament }
    ensures valid { IfSome result IsValidArmament }
{
    let _valid = rules.kinds();
    match rules.get(kind) {
        Some(kind) => kind.armament,
        None => None,
    }
}

/// Turns from one shot to the next of actors of the kind: 0 without `Armament`.
pub(crate) fn reload_of(rules: &Rules, kind: u16) -> u16
    ensures { result ≡ reload_in (kind_of rules.now kind).armament }
{
    match armament_of(rules, kind) {
        Some(armament) => armament.reload,
        None => 0,
    }
}

/// Whether actors of the kind move.
pub(crate) fn moves(rules: &Rules, kind: u16) -> bool
    ensures { result ≡ moves (kind_of rules.now kind) }
{
    match rules.get(kind) {
        Some(kind) => kind.moves(),
        None => false,
    }
}

/// Whether the one cell is within range of the other for actors of the kind. Without `Armament`
/// the range is 0.
pub(crate) fn is_in_range(rules: &Rules, kind: u16, from: CPos, to: CPos) -> bool
    ensures { result ≡ nat_le (dist_sq_of from to) (square
        (range_in (kind_of rules.now kind).armament)) }
{
    let range = match armament_of(rules, kind) {
        Some(armament) => u64::from(armament.range),
        None => 0,
    };
    dist_sq(from, to) <= range * range
}
