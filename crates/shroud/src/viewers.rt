ghost use Rattle.std.specs.Prelude.{◌≡◌, ◌<◌, ◌≤◌, [], ◌∷◌};
ghost use Rattle.std.specs.Prelude.{◌++◌, drop, length, slice_get, IfOk, IsSome};
ghost use Rattle.shroud.specs.Viewers.{Lists};

use crate::viewer::Viewer;
use base::NoMemory;
use game_model::MAX_ACTORS;
use std::alloc::Global;
use std::marker::Model;
use std::mem;

/// The actors of the last update that an update has not gone over yet, and the actors of this one
/// so far: of each at most [`MAX_ACTORS`], with the memory for as many.
#[derive(Drop)]
pub(crate) struct Viewers {
    kept: Vec<Viewer>,
    passed: usize,
    fresh: Vec<Viewer>,
}

impl Model for Viewers {
    ghost use Rattle.std.specs.Prelude.{◌≤◌, drop, length, vec_capacity};
    ghost use Rattle.game_model.specs.declared.limits.TheConstants.{MAX_ACTORS};
    ghost use Rattle.shroud.specs.Viewers.{Lists};

    ghost Value = { Lists };

    ghost view = { λ v. record { left = drop v.passed v.kept.items; fresh = v.fresh.items } };

    ghost invariant = { λ v. (v.passed ≤ length v.kept.items)
        × (length v.kept.items ≤ MAX_ACTORS) × (length v.fresh.items ≤ MAX_ACTORS)
        × (MAX_ACTORS ≤ vec_capacity v.kept) × (MAX_ACTORS ≤ vec_capacity v.fresh) };
}

impl Viewers {
    /// None. All memory that is ever wanted is taken here; out of memory is the only error.
    pub(crate) fn create(alloc: Global) -> Result<Viewers, NoMemory>
        ensures { IfOk result (λ viewers. viewers ≡ (record { left = []; fresh = [] })) }
    {
        Ok(Viewers {
            kept: Vec::with_capacity(alloc, MAX_ACTORS)?,
            passed: 0,
            fresh: Vec::with_capacity(alloc, MAX_ACTORS)?,
        })
    }

    /// The first that was not gone over. `None` exactly where all were.
    pub(crate) fn first(&self) -> Option<Viewer>
        ensures value { result ≡ slice_get self.now.left 0 }
        ensures few { length self.now.left ≤ MAX_ACTORS }
        ensures few_fresh { length self.now.fresh ≤ MAX_ACTORS }
    {
        match self.kept.get(self.passed) {
            Some(viewer) => Some(*viewer),
            None => None,
        }
    }

    /// Goes over the first.
    pub(crate) fn pass(&mut self)
        requires { IsSome (slice_get self.old.left 0) }
        ensures { self.new ≡ (record self.old { left = drop 1 self.old.left }) }
    {
        self.passed += 1;
    }

    /// Adds an actor of this update.
    pub(crate) fn push(&mut self, viewer: Viewer)
        requires { length self.old.fresh < MAX_ACTORS }
        ensures { self.new ≡ (record self.old { fresh = self.old.fresh ++ viewer ∷ [] }) }
    {
        self.fresh.push_reserved(viewer);
    }

    /// Ends this update, which went over all: its actors are now those of the last one.
    pub(crate) fn turn(&mut self)
        requires { self.old.left ≡ [] }
        ensures { self.new ≡ (record { left = self.old.fresh; fresh = [] }) }
    {
        mem::swap(&mut self.kept, &mut self.fresh);
        self.fresh.clear();
        self.passed = 0;
    }
}
