use base::NoMemory;
use std::alloc::Global;
use world_units::CPos;

/// What stands for the number of a walk where there is none.
pub(crate) const NO_WALK: u16 = u16::MAX;

/// A step of a known walk, by their numbers.
#[derive(Clone, Copy)]
pub(crate) struct StepPlace {
    pub(crate) walk: u16,
    pub(crate) step: u8,
}

impl StepPlace {
    /// The step after this one.
    pub(crate) fn next(self) -> StepPlace {
        StepPlace {
            walk: self.walk,
            step: self.step.saturating_add(1),
        }
    }
}

/// Which walk was followed last from each cell, and how far each has been followed. Since an actor
/// asks from the cell that it stands on, its walk is the one that was followed last from there or
/// from a neighbour. That is a guess: who reads a step there tests whether it is the wanted one.
#[derive(Drop)]
pub(crate) struct Trails {
    width: u8,
    /// The number of the walk that was followed last from each cell, row by row.
    walks: Vec<u16>,
    /// The number of the step that was followed last of each walk.
    steps: Vec<u8>,
}

impl Trails {
    /// No trails of at most so many walks over maps of this size. Out of memory is its only error.
    pub(crate) fn create(alloc: Global, w: u8, h: u8, most: usize) -> Result<Trails, NoMemory> {
        let mut walks = Vec::new(alloc);
        let mut steps = Vec::new(alloc);
        if most > 0 {
            walks.resize(usize::from(w) * usize::from(h), NO_WALK)?;
            steps.resize(most, 0)?;
        }
        Ok(Trails {
            width: w,
            walks,
            steps,
        })
    }

    /// The step that was followed last of the walk that was followed last from a cell.
    pub(crate) fn last(&self, cell: CPos) -> StepPlace {
        match self.walks.get(self.place(cell)) {
            Some(walk) => self.last_of(*walk),
            None => self.last_of(NO_WALK),
        }
    }

    /// The step that was followed last of a walk.
    pub(crate) fn last_of(&self, walk: u16) -> StepPlace {
        let step = match self.steps.get(usize::from(walk)) {
            Some(step) => *step,
            None => 0,
        };
        StepPlace { walk, step }
    }

    /// Notes that a step is followed, from this cell.
    pub(crate) fn follow(&mut self, cell: CPos, place: StepPlace) {
        let at = self.place(cell);
        if at < self.walks.len() {
            self.walks[at] = place.walk;
        }
        let walk = usize::from(place.walk);
        if walk < self.steps.len() {
            self.steps[walk] = place.step;
        }
    }

    /// The place of a cell.
    fn place(&self, cell: CPos) -> usize {
        usize::from(cell.y) * usize::from(self.width) + usize::from(cell.x)
    }
}
