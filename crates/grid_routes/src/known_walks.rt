ghost use Rattle.std.specs.Prelude.{◌≡◌, [], IfOk, IfSome};
ghost use Rattle.grid_routes.specs.KnownWalks.{IsKnown, IsPut};

use crate::ask::Ask;
use crate::known_walk::KnownWalk;
use crate::trails::{NO_WALK, StepPlace, Trails};
use crate::walks_by_goal::WalksByGoal;
use base::NoMemory;
use std::alloc::Global;
use world_units::{CPos, DIRECTIONS, opposite, step};

/// How many walks are known at most: as many as there may be actors.
pub(crate) const WALKS: usize = 2_048;

/// Where a walk is looked for.
#[derive(Clone, Copy)]
pub(crate) enum Reach {
    /// Followed from the cell, or up to the step before it from a neighbour.
    Near,
    /// Anywhere: it takes a look at each walk to the goal.
    Anywhere,
}

/// Walks that were found, and where they are followed.
#[derive(Drop)]
pub(crate) struct KnownWalks {
    pub(crate) walks: Vec<KnownWalk>,
    /// Where the wanted step may be.
    pub(crate) trails: Trails,
    /// Which walks may have it.
    pub(crate) by_goal: WalksByGoal,
    /// The walk whose place is taken next where all places are.
    pub(crate) oldest: u16,
}

impl KnownWalks {
    /// Room for so many walks over maps of this size. Out of memory is its only error.
    pub(crate) fn create(alloc: Global, w: u8, h: u8, most: usize) -> Result<KnownWalks, NoMemory>
        ensures { IfOk result (λ known. known.walks.items ≡ []) }
    {
        let trails = Trails::create(alloc, w, h, most)?;
        let by_goal = WalksByGoal::create(alloc, w, h, most)?;
        Ok(KnownWalks {
            walks: Vec::with_capacity(alloc, most)?,
            trails,
            by_goal,
            oldest: 0,
        })
    }

    /// Forgets all walks.
    pub(crate) fn clear(&mut self)
        ensures { self.new.walks.items ≡ [] }
    {
        self.walks.clear();
        self.by_goal.clear();
    }

    /// The direction of the known step from a cell, if its walk is found.
    pub(crate) fn direction(&mut self, ask: &Ask, cell: CPos, reach: Reach) -> Option<u8>
        ensures known { IfSome result (IsKnown self.old.walks.items ask.now cell) }
        ensures same { self.new.walks ≡ self.old.walks }
    {
        match self.find(ask, cell, reach) {
            Some(place) => {
                self.trails.follow(cell, place);
                self.read(place, ask, cell)
            }
            None => None,
        }
    }

    /// Takes in a walk that is followed from a cell. One without steps is let go.
    pub(crate) fn put(&mut self, cell: CPos, walk: KnownWalk)
        ensures { IsPut self.old.walks.items self.new.walks.items walk }
    {
        if walk.steps.is_empty() {
            return;
        }
        let number = self.room(cell);
        let first = StepPlace {
            walk: number,
            step: 0,
        };
        self.trails.follow(cell, first);
        self.sort(number, walk.ask.goal);
        store(&mut self.walks, usize::from(number), walk);
    }

    /// Sorts the number of a walk by its goal, and no longer by that of the walk whose place it
    /// takes.
    fn sort(&mut self, number: u16, goal: CPos)
        ensures { self.new.walks ≡ self.old.walks }
    {
        if let Some(last) = self.walks.get(usize::from(number)) {
            self.by_goal.remove(number, last.ask.goal);
        }
        self.by_goal.add(number, goal);
    }

    /// The direction of a step, if it is one from this cell for this goal and these costs.
    fn read(&self, place: StepPlace, ask: &Ask, cell: CPos) -> Option<u8>
        ensures { IfSome result (IsKnown self.now.walks.items ask.now cell) }
    {
        match self.walks.get(usize::from(place.walk)) {
            Some(walk) => {
                if walk.ask.is_same(ask) {
                    walk.direction(usize::from(place.step), cell)
                } else {
                    None
                }
            }
            None => None,
        }
    }

    /// The step from a cell, of a walk within reach.
    fn find(&self, ask: &Ask, cell: CPos, reach: Reach) -> Option<StepPlace> {
        match reach {
            Reach::Near => self.find_near(ask, cell),
            Reach::Anywhere => self.find_anywhere(ask, cell),
        }
    }

    /// The step from a cell: of the walk that was followed from there, else of one that was
    /// followed up to the step before it.
    fn find_near(&self, ask: &Ask, cell: CPos) -> Option<StepPlace> {
        let here = self.trails.last(cell);
        if self.read(here, ask, cell).is_some() {
            return Some(here);
        }
        for d in 0..DIRECTIONS {
            if let Some(near) = step(cell, d) {
                let place = self.trails.last(near).next();
                if self.read(place, ask, cell).is_some() {
                    return Some(place);
                }
            }
        }
        None
    }

    /// The step from a cell, of any walk to the goal: another one may have been followed since from
    /// the cell before it.
    fn find_anywhere(&self, ask: &Ask, cell: CPos) -> Option<StepPlace> {
        let mut number = self.by_goal.newest(ask.goal);
        for _look in 0..self.walks.len() {
            if number == NO_WALK {
                return None;
            }
            let place = self.trails.last_of(number).next();
            if self.read(place, ask, cell).is_some() {
                return Some(place);
            }
            number = self.by_goal.older(number);
        }
        None
    }

    /// The number for a walk from a cell: one that is not taken, else that of the walk that was
    /// followed to there, else each by turns.
    fn room(&mut self, cell: CPos) -> u16
        ensures { self.new.walks ≡ self.old.walks }
    {
        let len = self.walks.len();
        if len < self.walks.capacity() {
            return u16::try_from(len).unwrap_or(0);
        }
        match self.followed_to(cell) {
            Some(number) => number,
            None => self.next(),
        }
    }

    /// The number of the walk that was followed last from a cell, else of one that was followed
    /// last from a neighbour into it.
    fn followed_to(&self, cell: CPos) -> Option<u16> {
        let here = self.trails.last(cell);
        if self.way(here, cell).is_some() {
            return Some(here.walk);
        }
        for d in 0..DIRECTIONS {
            if let Some(near) = step(cell, d) {
                let place = self.trails.last(near);
                if self.way(place, near) == Some(opposite(d)) {
                    return Some(place.walk);
                }
            }
        }
        None
    }

    /// The direction of a step, if it is one from this cell.
    fn way(&self, place: StepPlace, cell: CPos) -> Option<u8> {
        match self.walks.get(usize::from(place.walk)) {
            Some(walk) => walk.direction(usize::from(place.step), cell),
            None => None,
        }
    }

    /// Each number by turns.
    fn next(&mut self) -> u16
        ensures { self.new.walks ≡ self.old.walks }
    {
        let number = self.oldest;
        let after = number.saturating_add(1);
        let has_more = usize::from(after) < self.walks.len();
        self.oldest = if has_more { after } else { 0 };
        number
    }
}

/// Puts a walk in place of the one of a number, or adds it where there is none and there is room.
fn store(walks: &mut Vec<KnownWalk>, number: usize, walk: KnownWalk)
    ensures { IsPut walks.old.items walks.new.items walk }
{
    if number < walks.len() {
        walks[number] = walk;
    } else if walks.len() < walks.capacity() {
        walks.push_reserved(walk);
    }
}
