ghost use Rattle.std.specs.Prelude.{◌≡◌, [], Contains, IfSome};
ghost use Rattle.grid_routes.specs.declared.known_walk.KnownStep.{KnownStep};
ghost use Rattle.grid_routes.specs.KnownWalks.{IsAdded};

use crate::ask::Ask;
use arrayvec::ArrayVec;
use world_units::CPos;

/// How many steps of a walk are known at most.
pub(crate) const AHEAD: usize = 64;

/// The best direction of a cell, for the goal and costs of a walk.
#[derive(Clone, Copy, Default)]
pub(crate) struct KnownStep {
    pub(crate) cell: CPos,
    pub(crate) direction: u8,
}

/// The first steps of a walk that was found.
#[derive(Drop)]
pub(crate) struct KnownWalk {
    /// Where it leads to, and what entering each kind of ground costs.
    pub(crate) ask: Ask,
    /// Its steps, one after the other.
    pub(crate) steps: ArrayVec<KnownStep, AHEAD>,
}

impl KnownWalk {
    /// A walk of which no step is known.
    pub(crate) fn create(ask: &Ask) -> KnownWalk
        ensures asked { result.ask ≡ ask.now }
        ensures empty { result.steps.items ≡ [] }
    {
        KnownWalk {
            ask: *ask,
            steps: ArrayVec::new(),
        }
    }

    /// Adds a step last, if there is room.
    pub(crate) fn add(&mut self, cell: CPos, direction: u8)
        ensures asked { self.new.ask ≡ self.old.ask }
        ensures added { IsAdded self.old.steps.items self.new.steps.items
            (record { cell = cell; direction = direction }) }
    {
        if self.steps.len() < AHEAD {
            self.steps.push(KnownStep { cell, direction });
        }
    }

    /// The direction of a step, if it is one from this cell.
    pub(crate) fn direction(&self, step: usize, cell: CPos) -> Option<u8>
        ensures { IfSome result (λ d. Contains self.now.steps.items
            (record { cell = cell; direction = d })) }
    {
        match self.steps.as_slice().get(step) {
            Some(step) => direction_of(step, cell),
            None => None,
        }
    }
}

/// The direction of a step, if it is one from this cell.
fn direction_of(step: &KnownStep, cell: CPos) -> Option<u8>
    ensures { IfSome result (λ d. step.now ≡ record { cell = cell; direction = d }) }
{
    if step.cell == cell {
        Some(step.direction)
    } else {
        None
    }
}
