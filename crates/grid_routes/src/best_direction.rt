ghost use Rattle.std.specs.Prelude.{◌≡◌, ℕ, ◌+◌, ◌<◌, ◌≤◌, IsTrue, IsFalse, MatchOption};
ghost use Rattle.game_model.specs.Grid.{IsOn};
ghost use Rattle.game_model.specs.Walks.{IsBestDirection};
ghost use Rattle.grid_routes.specs.Labels.{IsFinalLabel};
ghost use Rattle.grid_routes.specs.Steps.{IsGoing, IsLead, IsLeastLead};
ghost use Rattle.grid_routes.specs.EntryCosts.{entry_cost_in};

use crate::entry_costs::EntryCosts;
use crate::field::{Field, NONE};
use world_units::{CPos, DIRECTIONS, step};

/// The least direction whose step begins a walk of least cost, for a cell whose label is final.
pub(crate) fn best_on(entry_costs: &EntryCosts, field: &Field, from: CPos, goal: CPos) -> Option<u8>
    requires going { IsGoing (record { entry_cost = entry_cost_in entry_costs.now; goal = goal }) field.now }
    requires on { IsOn field.now.labels.width field.now.labels.height from }
    requires settled { IsFinalLabel field.now from }
    ensures { IsBestDirection (record { entry_cost = entry_cost_in entry_costs.now; goal = goal }) from result }
{
    let distance = field.label(from);
    if distance == NONE {
        None
    } else {
        least_lead(entry_costs, field, from, distance)
    }
}

/// The least direction whose step leads to a label that is less by the step's cost.
pub(crate) fn least_lead(
    entry_costs: &EntryCosts,
    field: &Field,
    from: CPos,
    distance: u32,
) -> Option<u8>
    requires { distance < NONE }
    ensures { MatchOption result ((d : ℕ) →
        IsLead (entry_cost_in entry_costs.now) field.now.labels from distance d →
        ⊥) (λ d. IsLeastLead (entry_cost_in entry_costs.now) field.now.labels from distance d) }
{
    for d in 0..DIRECTIONS {
        if leads(entry_costs, field, from, d, distance) {
            return Some(d);
        }
    }
    None
}

/// Whether the step in direction `d` leads to a label that is less by the step's cost.
fn leads(entry_costs: &EntryCosts, field: &Field, from: CPos, d: u8, distance: u32) -> bool
    requires direction { d < 8 }
    requires distance { distance < NONE }
    ensures yes { IsTrue result → IsLead (entry_cost_in entry_costs.now) field.now.labels from
        distance d }
    ensures no { IsFalse result → IsLead (entry_cost_in entry_costs.now) field.now.labels from
        distance d → ⊥ }
{
    match step(from, d) {
        Some(q) => {
            let label = field.label(q);
            label < distance && entry_costs.step_cost(from, d, q) == distance - label
        }
        None => false,
    }
}
