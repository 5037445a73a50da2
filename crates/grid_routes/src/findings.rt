ghost use Rattle.std.specs.Prelude.{◌≡◌, ◌⊎◌, ◌≤◌, if◌then◌else◌, All, Contains, IfOk, IfSome};
ghost use Rattle.std.specs.Prelude.{[], None, Some};
ghost use Rattle.game_model.specs.Grid.{IsOn, HasSize};
ghost use Rattle.game_model.specs.Walks.{IsBest, IsBestDirection};
ghost use Rattle.grid_routes.specs.EntryCosts.{IsCheap, land_over};
ghost use Rattle.grid_routes.specs.Kept.{IsFor, IsSameGround, IsSettled};
ghost use Rattle.grid_routes.specs.KnownWalks.{AreBest, IsBestWalk};
ghost use Rattle.grid_routes.specs.Findings.{AreFindings};
ghost use Rattle.grid_routes.specs.Asked.{asks_in, one_more, CountsOn, KeepsOnly};

use crate::ask::Ask;
use crate::best_direction::best_on;
use crate::fields::Fields;
use crate::index::FIELDS;
use crate::known_walk::{AHEAD, KnownWalk};
use crate::known_walks::{KnownWalks, Reach, WALKS};
use crate::search::Search;
use base::NoMemory;
use game_model::{Blocks, Map};
use std::alloc::Global;
use world_units::{CPos, step};

/// What a router has found over one ground.
#[derive(Drop)]
pub(crate) struct Findings {
    /// Fields of distances.
    pub(crate) fields: Fields,
    /// The first steps of walks.
    pub(crate) known: KnownWalks,
    /// How many fields were begun, at most the greatest `u64`.
    pub(crate) computed: u64,
}

impl Findings {
    /// Room for at most so many kept fields over maps of this size. Where these are fewer than
    /// [`FIELDS`] there is none for walks. Out of memory is its only error.
    #[tactic(auto, using(crate::proofs::Knowing::none_best))]
    pub(crate) fn create(alloc: Global, w: u8, h: u8, most: usize) -> Result<Findings, NoMemory>
        requires { most ≤ FIELDS }
        ensures found { IfOk result (λ findings. AreFindings w h findings) }
        ensures computed { IfOk result (λ findings. findings.computed ≡ 0) }
        ensures unasked { IfOk result (λ findings. findings.fields.ask ≡ None) }
        ensures asks { IfOk result (λ findings. asks_in findings ≡ []) }
    {
        let fields = Fields::create(alloc, w, h, most)?;
        let known = KnownWalks::create(alloc, w, h, walks_beside(most))?;
        Ok(Findings {
            fields,
            known,
            computed: 0,
        })
    }

    /// The best direction of a cell: what its kept field says where it is final, else that of a
    /// known step, else what a search finds.
    pub(crate) fn best_dir(&mut self, ask: &Ask, from: CPos) -> Option<u8>
        requires found { AreFindings self.old.fields.search.entry_costs.terrain.width
            self.old.fields.search.entry_costs.terrain.height self.old }
        requires costs { IsCheap ask.now.costs }
        requires goal { IsOn self.old.fields.search.entry_costs.terrain.width
            self.old.fields.search.entry_costs.terrain.height ask.now.goal }
        requires from { IsOn self.old.fields.search.entry_costs.terrain.width
            self.old.fields.search.entry_costs.terrain.height from }
        ensures found { AreFindings self.old.fields.search.entry_costs.terrain.width
            self.old.fields.search.entry_costs.terrain.height self.new }
        ensures ground { IsSameGround self.old.fields self.new.fields }
        ensures best { IsBestDirection (land_over self.old.fields.search.entry_costs.terrain
            self.old.fields.search.entry_costs.built ask.now.costs ask.now.goal) from result }
        ensures computed { CountsOn (asks_in self.old) ask.now self.old.computed self.new.computed }
        ensures asks { KeepsOnly ask.now (asks_in self.old) (asks_in self.new) }
        ensures again { self.old.fields.ask ≡ Some ask.now →
            self.new.computed ≡ self.old.computed }
        ensures begun { (self.new.computed ≡ self.old.computed) ⊎
            (self.new.fields.ask ≡ Some ask.now) }
    {
        match self.fields.final_place(ask, from) {
            Some(place) => self.fields.best_at(place, ask, from),
            None => self.find_near(ask, from),
        }
    }

    /// The best direction of a cell: that of a known step that is followed nearby, else what is
    /// found farther off.
    #[tactic(auto, using(crate::proofs::Asking::known_counts, crate::proofs::Asking::same_asks, crate::proofs::Asking::counts_after))]
    fn find_near(&mut self, ask: &Ask, from: CPos) -> Option<u8>
        requires found { AreFindings self.old.fields.search.entry_costs.terrain.width
            self.old.fields.search.entry_costs.terrain.height self.old }
        requires costs { IsCheap ask.now.costs }
        requires goal { IsOn self.old.fields.search.entry_costs.terrain.width
            self.old.fields.search.entry_costs.terrain.height ask.now.goal }
        requires from { IsOn self.old.fields.search.entry_costs.terrain.width
            self.old.fields.search.entry_costs.terrain.height from }
        ensures found { AreFindings self.old.fields.search.entry_costs.terrain.width
            self.old.fields.search.entry_costs.terrain.height self.new }
        ensures ground { IsSameGround self.old.fields self.new.fields }
        ensures best { IsBestDirection (land_over self.old.fields.search.entry_costs.terrain
            self.old.fields.search.entry_costs.built ask.now.costs ask.now.goal) from result }
        ensures computed { CountsOn (asks_in self.old) ask.now self.old.computed self.new.computed }
        ensures asks { KeepsOnly ask.now (asks_in self.old) (asks_in self.new) }
        ensures again { self.old.fields.ask ≡ Some ask.now →
            self.new.computed ≡ self.old.computed }
        ensures begun { (self.new.computed ≡ self.old.computed) ⊎
            (self.new.fields.ask ≡ Some ask.now) }
    {
        match self.known(ask, from, Reach::Near) {
            Some(direction) => Some(direction),
            None => self.find(ask, from),
        }
    }

    /// The best direction of a cell: what its kept field says once it is final, else that of a
    /// known step that is followed elsewhere, else what a search finds.
    #[tactic(auto, using(crate::proofs::Asking::known_counts, crate::proofs::Asking::same_asks, crate::proofs::Asking::counts_after))]
    fn find(&mut self, ask: &Ask, from: CPos) -> Option<u8>
        requires found { AreFindings self.old.fields.search.entry_costs.terrain.width
            self.old.fields.search.entry_costs.terrain.height self.old }
        requires costs { IsCheap ask.now.costs }
        requires goal { IsOn self.old.fields.search.entry_costs.terrain.width
            self.old.fields.search.entry_costs.terrain.height ask.now.goal }
        requires from { IsOn self.old.fields.search.entry_costs.terrain.width
            self.old.fields.search.entry_costs.terrain.height from }
        ensures found { AreFindings self.old.fields.search.entry_costs.terrain.width
            self.old.fields.search.entry_costs.terrain.height self.new }
        ensures ground { IsSameGround self.old.fields self.new.fields }
        ensures best { IsBestDirection (land_over self.old.fields.search.entry_costs.terrain
            self.old.fields.search.entry_costs.built ask.now.costs ask.now.goal) from result }
        ensures computed { CountsOn (asks_in self.old) ask.now self.old.computed self.new.computed }
        ensures asks { KeepsOnly ask.now (asks_in self.old) (asks_in self.new) }
        ensures again { self.old.fields.ask ≡ Some ask.now →
            self.new.computed ≡ self.old.computed }
        ensures begun { (self.new.computed ≡ self.old.computed) ⊎
            (self.new.fields.ask ≡ Some ask.now) }
    {
        if self.fields.has(ask) {
            self.settle(ask, from);
            return best_of(&self.fields.search, ask, from);
        }
        match self.known(ask, from, Reach::Anywhere) {
            Some(direction) => Some(direction),
            None => {
                self.settle(ask, from);
                self.best(ask, from)
            }
        }
    }

    /// Forgets all where it was found over another ground than this.
    pub(crate) fn look(&mut self, map: &Map, blocks: &Blocks)
        requires found { AreFindings map.now.width map.now.height self.old }
        requires terrain { HasSize map.now.width map.now.height map.now.terrain }
        requires blocks { HasSize map.now.width map.now.height blocks.now }
        ensures found { AreFindings map.now.width map.now.height self.new }
        ensures terrain { self.new.fields.search.entry_costs.terrain ≡ map.now.terrain }
        ensures blocks { self.new.fields.search.entry_costs.built ≡ blocks.now }
        ensures computed { self.new.computed ≡ self.old.computed }
        ensures asks { All (Contains (asks_in self.old)) (asks_in self.new) }
        ensures same { self.old.fields.search.entry_costs.terrain ≡ map.now.terrain →
            self.old.fields.search.entry_costs.built ≡ blocks.now → self.new ≡ self.old }
        ensures forgets { (self.old.fields.search.entry_costs.terrain ≡ map.now.terrain →
            self.old.fields.search.entry_costs.built ≡ blocks.now → ⊥) → asks_in self.new ≡ [] }
    {
        if !self.fields.search.entry_costs.is_over(map, blocks) {
            self.forget(map, blocks);
        }
    }

    /// Forgets all, and takes in another ground.
    #[tactic(auto, using(crate::proofs::Knowing::none_best))]
    fn forget(&mut self, map: &Map, blocks: &Blocks)
        requires found { AreFindings map.now.width map.now.height self.old }
        requires terrain { HasSize map.now.width map.now.height map.now.terrain }
        requires blocks { HasSize map.now.width map.now.height blocks.now }
        ensures found { AreFindings map.now.width map.now.height self.new }
        ensures terrain { self.new.fields.search.entry_costs.terrain ≡ map.now.terrain }
        ensures blocks { self.new.fields.search.entry_costs.built ≡ blocks.now }
        ensures computed { self.new.computed ≡ self.old.computed }
        ensures asks { asks_in self.new ≡ [] }
    {
        self.fields.forget(map, blocks);
        self.known.clear();
    }

    /// The direction of the known step from a cell, if there is one within reach.
    #[tactic(auto, using(crate::proofs::Knowing::known_best))]
    fn known(&mut self, ask: &Ask, from: CPos, reach: Reach) -> Option<u8>
        requires { AreFindings self.old.fields.search.entry_costs.terrain.width
            self.old.fields.search.entry_costs.terrain.height self.old }
        ensures found { AreFindings self.old.fields.search.entry_costs.terrain.width
            self.old.fields.search.entry_costs.terrain.height self.new }
        ensures fields { self.new.fields ≡ self.old.fields }
        ensures best { IfSome result (IsBest (land_over self.old.fields.search.entry_costs.terrain
            self.old.fields.search.entry_costs.built ask.now.costs ask.now.goal) from) }
        ensures computed { self.new.computed ≡ self.old.computed }
        ensures kept { IfSome result (λ d. Contains (asks_in self.old) ask.now) }
        ensures asks { asks_in self.new ≡ asks_in self.old }
    {
        self.known.direction(ask, from, reach)
    }

    /// Searches until the distance of a cell is final, and counts a field that was begun for it.
    pub(crate) fn settle(&mut self, ask: &Ask, from: CPos)
        requires found { AreFindings self.old.fields.search.entry_costs.terrain.width
            self.old.fields.search.entry_costs.terrain.height self.old }
        requires costs { IsCheap ask.now.costs }
        requires goal { IsOn self.old.fields.search.entry_costs.terrain.width
            self.old.fields.search.entry_costs.terrain.height ask.now.goal }
        requires from { IsOn self.old.fields.search.entry_costs.terrain.width
            self.old.fields.search.entry_costs.terrain.height from }
        ensures found { AreFindings self.old.fields.search.entry_costs.terrain.width
            self.old.fields.search.entry_costs.terrain.height self.new }
        ensures ground { IsSameGround self.old.fields self.new.fields }
        ensures search { IsFor self.new.fields.search ask.now }
        ensures settled { IsSettled self.new.fields.search from }
        ensures computed { CountsOn (asks_in self.old) ask.now self.old.computed self.new.computed }
        ensures asks { KeepsOnly ask.now (asks_in self.old) (asks_in self.new) }
        ensures again { self.old.fields.ask ≡ Some ask.now →
            self.new.computed ≡ self.old.computed }
        ensures asked { self.new.fields.ask ≡ Some ask.now }
    {
        let begun = self.fields.settle(ask, from);
        self.computed = counted(self.computed, begun);
    }

    /// The best direction of a cell whose label is final. Takes in the walk from it.
    fn best(&mut self, ask: &Ask, from: CPos) -> Option<u8>
        requires found { AreFindings self.old.fields.search.entry_costs.terrain.width
            self.old.fields.search.entry_costs.terrain.height self.old }
        requires search { IsFor self.old.fields.search ask.now }
        requires settled { IsSettled self.old.fields.search from }
        ensures found { AreFindings self.old.fields.search.entry_costs.terrain.width
            self.old.fields.search.entry_costs.terrain.height self.new }
        ensures fields { self.new.fields ≡ self.old.fields }
        ensures best { IsBestDirection (land_over self.old.fields.search.entry_costs.terrain
            self.old.fields.search.entry_costs.built ask.now.costs ask.now.goal) from result }
        ensures computed { self.new.computed ≡ self.old.computed }
        ensures asks { KeepsOnly ask.now (asks_in self.old) (asks_in self.new) }
    {
        let walk = walk_from(&self.fields.search, ask, from);
        self.known.put(from, walk);
        best_of(&self.fields.search, ask, from)
    }
}

/// How many walks are known at most beside so many fields.
fn walks_beside(most: usize) -> usize
    requires { most ≤ FIELDS }
{
    if most < FIELDS { 0 } else { WALKS }
}

/// The count of fields that were begun, after one more if one was.
fn counted(computed: u64, begun: bool) -> u64
    ensures { result ≡ (if begun then one_more computed else computed) }
{
    if begun {
        computed.saturating_add(1)
    } else {
        computed
    }
}

/// The walk from a cell whose label is final, as far as its steps are taken in.
fn walk_from(search: &Search, ask: &Ask, from: CPos) -> KnownWalk
    requires search { IsFor search.now ask.now }
    requires settled { IsSettled search.now from }
    ensures best { IsBestWalk search.now.entry_costs.terrain search.now.entry_costs.built result }
    ensures asked { result.ask ≡ ask.now }
{
    let mut walk = KnownWalk::create(ask);
    let mut at = from;
    for _taken in 0..AHEAD {
        let Some(next) = take_step(&mut walk, search, ask, at) else {
            return walk;
        };
        at = next;
    }
    walk
}

/// Takes in the best step from a cell whose label is final, and returns the cell that it enters.
fn take_step(walk: &mut KnownWalk, search: &Search, ask: &Ask, at: CPos) -> Option<CPos>
    requires walk { IsBestWalk search.now.entry_costs.terrain search.now.entry_costs.built walk.old }
    requires asked { walk.old.ask ≡ ask.now }
    requires search { IsFor search.now ask.now }
    requires settled { IsSettled search.now at }
    ensures walk { IsBestWalk search.now.entry_costs.terrain search.now.entry_costs.built walk.new }
    ensures asked { walk.new.ask ≡ ask.now }
    ensures next { IfSome result (IsSettled search.now) }
{
    match best_of(search, ask, at) {
        Some(direction) => {
            walk.add(at, direction);
            step(at, direction)
        }
        None => None,
    }
}

/// The best direction of a cell whose label is final.
fn best_of(search: &Search, ask: &Ask, from: CPos) -> Option<u8>
    requires search { IsFor search.now ask.now }
    requires settled { IsSettled search.now from }
    ensures { IsBestDirection (land_over search.now.entry_costs.terrain search.now.entry_costs.built
        ask.now.costs ask.now.goal) from result }
{
    best_on(&search.entry_costs, &search.field, from, ask.goal)
}
