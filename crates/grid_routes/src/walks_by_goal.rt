use crate::trails::NO_WALK;
use base::NoMemory;
use std::alloc::Global;
use world_units::CPos;

/// The numbers of the walks to each cell, from the newest to the oldest. As with trails, who reads
/// the walk of a number tests whether it is a wanted one.
#[derive(Drop)]
pub(crate) struct WalksByGoal {
    width: u8,
    /// The newest walk to each cell, row by row.
    newest: Vec<u16>,
    /// Of each walk the next older one to the same cell.
    older: Vec<u16>,
    /// Of each walk the next newer one to the same cell.
    newer: Vec<u16>,
}

impl WalksByGoal {
    /// No walks, of at most so many to the cells of a map of this size. Out of memory is its only
    /// error.
    pub(crate) fn create(
        alloc: Global,
        w: u8,
        h: u8,
        most: usize,
    ) -> Result<WalksByGoal, NoMemory> {
        let mut newest = Vec::new(alloc);
        let mut older = Vec::new(alloc);
        let mut newer = Vec::new(alloc);
        if most > 0 {
            newest.resize(usize::from(w) * usize::from(h), NO_WALK)?;
            older.resize(most, NO_WALK)?;
            newer.resize(most, NO_WALK)?;
        }
        Ok(WalksByGoal {
            width: w,
            newest,
            older,
            newer,
        })
    }

    /// Forgets all walks.
    pub(crate) fn clear(&mut self) {
        self.newest.as_mut_slice().fill(NO_WALK);
    }

    /// The newest walk to a cell.
    pub(crate) fn newest(&self, goal: CPos) -> u16 {
        number_at(&self.newest, self.place(goal))
    }

    /// The next older walk to the same cell.
    pub(crate) fn older(&self, walk: u16) -> u16 {
        number_at(&self.older, usize::from(walk))
    }

    /// Adds a walk to a cell, as its newest. It is not there yet.
    pub(crate) fn add(&mut self, walk: u16, goal: CPos) {
        let place = self.place(goal);
        let next = number_at(&self.newest, place);
        put_at(&mut self.older, usize::from(walk), next);
        put_at(&mut self.newer, usize::from(walk), NO_WALK);
        put_at(&mut self.newer, usize::from(next), walk);
        put_at(&mut self.newest, place, walk);
    }

    /// Removes a walk to a cell.
    pub(crate) fn remove(&mut self, walk: u16, goal: CPos) {
        let older = number_at(&self.older, usize::from(walk));
        let newer = number_at(&self.newer, usize::from(walk));
        put_at(&mut self.newer, usize::from(older), newer);
        if newer == NO_WALK {
            let place = self.place(goal);
            put_at(&mut self.newest, place, older);
        } else {
            put_at(&mut self.older, usize::from(newer), older);
        }
    }

    /// The place of a cell.
    fn place(&self, cell: CPos) -> usize {
        usize::from(cell.y) * usize::from(self.width) + usize::from(cell.x)
    }
}

/// The number at a place.
fn number_at(numbers: &[u16], place: usize) -> u16 {
    match numbers.get(place) {
        Some(number) => *number,
        None => NO_WALK,
    }
}

/// Puts a number at a place, if there is one.
fn put_at(numbers: &mut [u16], place: usize, number: u16) {
    if place < numbers.len() {
        numbers[place] = number;
    }
}
