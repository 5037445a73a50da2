ghost use Rattle.std.specs.Prelude.{◌≡◌, true, false, length, replicate, IfOk, Some, slice_get};
ghost use Rattle.std.specs.Prelude.{slice_set};
ghost use Rattle.game_model.specs.declared.actor.Actor.{Actor};
ghost use Rattle.actor_table.specs.Idle.{IsIdle};

use base::NoMemory;
use game_model::Body;
use std::alloc::Global;
use std::marker::Model;

/// A mark for each place of a table, so that who has nothing to do is passed over without a look
/// at the actor.
#[derive(Drop)]
pub(crate) struct IdleMarks {
    marks: Vec<bool>,
}

impl Model for IdleMarks {
    ghost use Rattle.std.specs.Prelude.{List, Bool};

    ghost Value = { List Bool };

    ghost view = { λ m. m.marks.items };
}

impl IdleMarks {
    /// So many places without a mark. Out of memory is its only error.
    pub(crate) fn create(alloc: Global, count: usize) -> Result<IdleMarks, NoMemory>
        ensures { IfOk result (λ marks. marks ≡ replicate count false) }
    {
        let mut marks = Vec::new(alloc);
        marks.resize(count, false)?;
        Ok(IdleMarks { marks })
    }

    /// Whether there is a mark at a place.
    pub(crate) fn get(&self, i: usize) -> bool
        ensures { result ≡ true → slice_get self.now i ≡ Some true }
    {
        i < self.marks.len() && self.marks[i]
    }

    /// Sets or takes the mark of a place, if there is such a place.
    pub(crate) fn set(&mut self, i: usize, mark: bool)
        ensures { self.new ≡ slice_set self.old i mark }
    {
        if i < self.marks.len() {
            self.marks[i] = mark;
        }
    }

    /// Takes all marks.
    pub(crate) fn clear(&mut self)
        ensures { self.new ≡ replicate (length self.old) false }
    {
        self.marks.as_mut_slice().fill(false);
    }
}

/// Whether an actor with this body has nothing to load, to do, to go or to build.
pub(crate) fn is_idle(body: &Body) -> bool
    ensures { (a : Actor) → a.body ≡ body.now → result ≡ true → IsIdle a }
{
    body.reload == 0
        && body.builds.is_empty()
        && body.leg.is_none()
        && body.acts.as_slice().is_empty()
}
