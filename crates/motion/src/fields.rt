ghost use Rattle.std.specs.Prelude.{◌≡◌};
ghost use Rattle.game_model.specs.Kinds.{kind_of, speed_in, turning_in, costs_in};
ghost use Rattle.grid_routes.specs.EntryCosts.{IsCheap};

use rule_traits::{Costs, Rules};

/// Units that actors of the kind move in a turn: 0 without `Mobile`.
pub(crate) fn speed_of(rules: &Rules, kind: u16) -> u32
    ensures { result ≡ speed_in (kind_of rules.now kind).mobile }
{
    match rules.get(kind) {
        Some(kind) => match &kind.mobile {
            Some(mobile) => mobile.speed,
            None => 0,
        },
        None => 0,
    }
}

/// How far actors of the kind turn in a turn, in 1,024ths of a full turn: 0 without `Mobile`.
pub(crate) fn turning_of(rules: &Rules, kind: u16) -> u16
    ensures { result ≡ turning_in (kind_of rules.now kind).mobile }
{
    match rules.get(kind) {
        Some(kind) => match &kind.mobile {
            Some(mobile) => mobile.turn,
            None => 0,
        },
        None => 0,
    }
}

/// What the cells cost that actors of the kind enter, each 0 to 10: 0 without `Mobile`.
pub(crate) fn costs_of(rules: &Rules, kind: u16) -> Costs
    ensures value { result ≡ costs_in (kind_of rules.now kind).mobile }
    ensures cheap { IsCheap result }
{
    let _valid = rules.kinds();
    match rules.get(kind) {
        Some(kind) => match &kind.mobile {
            Some(mobile) => mobile.costs,
            None => NO_WAY,
        },
        None => NO_WAY,
    }
}

/// The costs of a kind that enters no cell.
const NO_WAY: Costs = Costs {
    clear: 0,
    road: 0,
    rough: 0,
    water: 0,
};
