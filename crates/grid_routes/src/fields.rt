ghost use Rattle.std.specs.Prelude.{◌≡◌, ◌≤◌, ◌<◌, All, Some, None, IfOk, IsTrue, length};
ghost use Rattle.std.specs.Prelude.{slice_index_or, slice_set, slice_get, ◌↔◌, IfSome, IsSomeAnd};
ghost use Rattle.std.specs.Prelude.{IsFalse, Contains, []};
ghost use Rattle.game_model.specs.Grid.{IsOn, HasSize};
ghost use Rattle.game_model.specs.Walks.{IsBestDirection};
ghost use Rattle.grid_routes.specs.declared.fields.Kept.{Kept};
ghost use Rattle.grid_routes.specs.EntryCosts.{IsCheap, land_over};
ghost use Rattle.grid_routes.specs.Labels.{IsFinalLabel};
ghost use Rattle.grid_routes.specs.Asked.{asks_of, IsOrIn};
ghost use Rattle.grid_routes.specs.Kept.{AreFields, AreForgotten, IsBegun, IsFinal, IsFor};
ghost use Rattle.grid_routes.specs.Kept.{IsRoom, IsSameGround, IsWidened};

use crate::ask::Ask;
use crate::best_direction::best_on;
use crate::field::Field;
use crate::index::{FIELDS, Index};
use crate::reach::Reach;
use crate::search::Search;
use base::NoMemory;
use game_model::{Blocks, Map};
use std::alloc::Global;
use std::mem;
use world_units::CPos;

/// A field of distances, and what it belongs to. One that belongs to nothing is only room.
#[derive(Drop)]
pub(crate) struct Kept {
    pub(crate) ask: Option<Ask>,
    pub(crate) field: Field,
}

/// The search that was asked last, and the fields of earlier ones.
#[derive(Drop)]
pub(crate) struct Fields {
    /// The search, over the ground to which all fields belong. Its entry costs are those of the
    /// question that was asked last.
    pub(crate) search: Search,
    /// What its field belongs to.
    pub(crate) ask: Option<Ask>,
    /// The other fields: as many as were wanted so far, and one more. Where the search's own has
    /// its place there is only room.
    pub(crate) kept: Vec<Kept>,
    /// Memory for more fields, which is not written until they are wanted.
    pub(crate) spare: Vec<Vec<u32>>,
    /// The place of the search's field; the last one is that of a field which isn't kept.
    pub(crate) place: usize,
    /// Where each field has its place.
    pub(crate) index: Index,
}

impl Fields {
    /// Room for at most so many kept fields over maps of this size. Out of memory is its only
    /// error.
    pub(crate) fn create(alloc: Global, w: u8, h: u8, most: usize) -> Result<Fields, NoMemory>
        requires { most ≤ FIELDS }
        ensures fields { IfOk result (λ fields. AreFields w h fields) }
        ensures unasked { IfOk result (λ fields. fields.ask ≡ None) }
        ensures asks { IfOk result (λ fields. asks_of fields.ask fields.kept.items ≡ []) }
    {
        let search = Search::create(alloc, w, h)?;
        let kept = room(alloc, w, h, most)?;
        Ok(Fields {
            search,
            ask: None,
            kept,
            spare: blocks(alloc, w, h, most)?,
            place: 0,
            index: Index::create(alloc, most)?,
        })
    }

    /// Searches until the distance of a cell is final, from where the last search for this goal and
    /// these costs stopped. Returns whether there was none that is kept.
    pub(crate) fn settle(&mut self, ask: &Ask, from: CPos) -> bool
        requires fields { AreFields self.old.search.entry_costs.terrain.width
            self.old.search.entry_costs.terrain.height self.old }
        requires costs { IsCheap ask.now.costs }
        requires goal { IsOn self.old.search.entry_costs.terrain.width
            self.old.search.entry_costs.terrain.height ask.now.goal }
        ensures fields { AreFields self.old.search.entry_costs.terrain.width
            self.old.search.entry_costs.terrain.height self.new }
        ensures ground { IsSameGround self.old self.new }
        ensures search { IsFor self.new.search ask.now }
        ensures settled { IsFinalLabel self.new.search.field from }
        ensures begun { IsFalse result → Contains (asks_of self.old.ask self.old.kept.items) ask.now }
        ensures asks { All (IsOrIn ask.now (asks_of self.old.ask self.old.kept.items))
            (asks_of self.new.ask self.new.kept.items) }
        ensures again { self.old.ask ≡ Some ask.now → IsFalse result }
        ensures asked { self.new.ask ≡ Some ask.now }
    {
        let goal = ask.goal;
        let begun = self.turn_to(ask, Reach::around(from, ask));
        self.search.settle(&ask.costs, from, goal);
        begun
    }

    /// Whether a field is kept for this. It need not be so: that is never relied on.
    pub(crate) fn has(&self, ask: &Ask) -> bool {
        self.index.has(ask)
    }

    /// The place of the field for this, if its label of a cell is final.
    pub(crate) fn final_place(&mut self, ask: &Ask, from: CPos) -> Option<usize>
        ensures same { self.new ≡ record self.old { index = self.new.index } }
        ensures settled { IfSome result (λ place.
            IsSomeAnd (slice_get self.old.kept.items place) (IsFinal ask.now from)) }
    {
        match self.index.find(ask) {
            Some(place) => place_if_final(&self.kept, place, ask, from),
            None => None,
        }
    }

    /// The best direction of a cell by the field at a place, which is read where it lies.
    pub(crate) fn best_at(&mut self, place: usize, ask: &Ask, from: CPos) -> Option<u8>
        requires fields { AreFields self.old.search.entry_costs.terrain.width
            self.old.search.entry_costs.terrain.height self.old }
        requires costs { IsCheap ask.now.costs }
        requires from { IsOn self.old.search.entry_costs.terrain.width
            self.old.search.entry_costs.terrain.height from }
        requires settled { IsSomeAnd (slice_get self.old.kept.items place) (IsFinal ask.now from) }
        ensures fields { AreFields self.old.search.entry_costs.terrain.width
            self.old.search.entry_costs.terrain.height self.new }
        ensures ground { IsSameGround self.old self.new }
        ensures asked { self.new.ask ≡ self.old.ask }
        ensures kept { self.new.kept.items ≡ self.old.kept.items }
        ensures best { IsBestDirection (land_over self.old.search.entry_costs.terrain
            self.old.search.entry_costs.built ask.now.costs ask.now.goal) from result }
    {
        let Some(kept) = self.kept.get(place) else {
            unreachable!()
        };
        self.search.entry_costs.turn_to(&ask.costs, ask.goal);
        best_on(&self.search.entry_costs, &kept.field, from, ask.goal)
    }

    /// Forgets all fields, and takes in another ground.
    pub(crate) fn forget(&mut self, map: &Map, blocks: &Blocks)
        requires fields { AreFields map.now.width map.now.height self.old }
        requires terrain { HasSize map.now.width map.now.height map.now.terrain }
        requires blocks { HasSize map.now.width map.now.height blocks.now }
        ensures fields { AreFields map.now.width map.now.height self.new }
        ensures terrain { self.new.search.entry_costs.terrain ≡ map.now.terrain }
        ensures blocks { self.new.search.entry_costs.built ≡ blocks.now }
        ensures asks { asks_of self.new.ask self.new.kept.items ≡ [] }
    {
        self.search.entry_costs.take_ground(map, blocks);
        self.ask = None;
        self.index.clear();
        forget_all(&mut self.kept);
    }

    /// Turns to a question: goes on with its field, or begins one for a search that goes so far.
    fn turn_to(&mut self, ask: &Ask, reach: Reach) -> bool
        requires fields { AreFields self.old.search.entry_costs.terrain.width
            self.old.search.entry_costs.terrain.height self.old }
        requires costs { IsCheap ask.now.costs }
        requires goal { IsOn self.old.search.entry_costs.terrain.width
            self.old.search.entry_costs.terrain.height ask.now.goal }
        ensures fields { AreFields self.old.search.entry_costs.terrain.width
            self.old.search.entry_costs.terrain.height self.new }
        ensures ground { IsSameGround self.old self.new }
        ensures asked { self.new.ask ≡ Some ask.now }
        ensures search { IsFor self.new.search ask.now }
        ensures begun { IsFalse result → Contains (asks_of self.old.ask self.old.kept.items) ask.now }
        ensures asks { All (IsOrIn ask.now (asks_of self.old.ask self.old.kept.items))
            (asks_of self.new.ask self.new.kept.items) }
        ensures again { self.old.ask ≡ Some ask.now → IsFalse result }
        ensures anew { IsTrue result → IsBegun ask.now.goal self.new.search.field }
    {
        if is_asked(&self.ask, ask) {
            self.search.entry_costs.turn_to(&ask.costs, ask.goal);
            false
        } else {
            self.put_back();
            let place = self.index.place(ask);
            self.make_room(place);
            let place = place.min(self.kept.len() - 1);
            self.take_up(place, ask, reach)
        }
    }

    /// Makes room for one more field where a place is the last one, or past it.
    fn make_room(&mut self, place: usize)
        requires fields { AreFields self.old.search.entry_costs.terrain.width
            self.old.search.entry_costs.terrain.height self.old }
        ensures fields { AreFields self.old.search.entry_costs.terrain.width
            self.old.search.entry_costs.terrain.height self.new }
        ensures search { self.new.search ≡ self.old.search }
        ensures asks { All (Contains (asks_of self.old.ask self.old.kept.items))
            (asks_of self.new.ask self.new.kept.items) }
    {
        let w = self.search.field.width();
        let h = self.search.field.height();
        widen(&mut self.kept, &mut self.spare, place, w, h);
    }

    /// Puts the field of the search back to its place.
    fn put_back(&mut self)
        requires fields { AreFields self.old.search.entry_costs.terrain.width
            self.old.search.entry_costs.terrain.height self.old }
        ensures fields { AreFields self.old.search.entry_costs.terrain.width
            self.old.search.entry_costs.terrain.height self.new }
        ensures entry_costs { self.new.search.entry_costs ≡ self.old.search.entry_costs }
        ensures asks { All (Contains (asks_of self.old.ask self.old.kept.items))
            (asks_of self.new.ask self.new.kept.items) }
    {
        exchange(&mut self.kept, self.place, &mut self.search.field, self.ask);
        self.ask = None;
    }

    /// Goes on with the field at a place if it belongs to this, and begins it anew if not, for a
    /// search that goes so far.
    fn take_up(&mut self, place: usize, ask: &Ask, reach: Reach) -> bool
        requires fields { AreFields self.old.search.entry_costs.terrain.width
            self.old.search.entry_costs.terrain.height self.old }
        requires place { place < length self.old.kept.items }
        requires costs { IsCheap ask.now.costs }
        requires goal { IsOn self.old.search.entry_costs.terrain.width
            self.old.search.entry_costs.terrain.height ask.now.goal }
        ensures fields { AreFields self.old.search.entry_costs.terrain.width
            self.old.search.entry_costs.terrain.height self.new }
        ensures ground { IsSameGround self.old self.new }
        ensures asked { self.new.ask ≡ Some ask.now }
        ensures search { IsFor self.new.search ask.now }
        ensures begun { IsFalse result → Contains (asks_of self.old.ask self.old.kept.items) ask.now }
        ensures asks { All (IsOrIn ask.now (asks_of self.old.ask self.old.kept.items))
            (asks_of self.new.ask self.new.kept.items) }
        ensures anew { IsTrue result → IsBegun ask.now.goal self.new.search.field }
        ensures found { IsFalse result → (d : Kept) →
            (slice_index_or self.old.kept.items place d).ask ≡ Some ask.now }
        ensures resumed { IsFalse result → (d : Kept) →
            self.new.search.field ≡ (slice_index_or self.old.kept.items place d).field }
    {
        let found = exchange(&mut self.kept, place, &mut self.search.field, None);
        let known = is_known(place, self.kept.len() - 1, &found, ask);
        self.search
            .set_out(known, &ask.costs, ask.goal, Some(reach));
        self.place = place;
        self.ask = Some(*ask);
        !known
    }
}

/// Whether a field belongs to this.
fn is_asked(last: &Option<Ask>, ask: &Ask) -> bool
    ensures { IsTrue result ↔ (last.now ≡ Some ask.now) }
{
    match last {
        Some(last) => last.is_same(ask),
        None => false,
    }
}

/// The place, if the field there belongs to this and its label of a cell is final.
fn place_if_final(kept: &[Kept], place: usize, ask: &Ask, from: CPos) -> Option<usize>
    ensures { IfSome result (λ place.
        IsSomeAnd (slice_get kept.now place) (IsFinal ask.now from)) }
{
    match kept.get(place) {
        Some(found) => {
            if is_final(found, ask, from) {
                Some(place)
            } else {
                None
            }
        }
        None => None,
    }
}

/// Whether a field belongs to this and its label of a cell is final.
fn is_final(kept: &Kept, ask: &Ask, from: CPos) -> bool
    ensures { IsTrue result → IsFinal ask.now from kept.now }
{
    is_asked(&kept.ask, ask) && kept.field.is_final(from)
}

/// Whether a field at a place below the last one belongs to this.
fn is_known(place: usize, last: usize, found: &Option<Ask>, ask: &Ask) -> bool
    ensures { IsTrue result → found.now ≡ Some ask.now }
{
    place < last && is_asked(found, ask)
}

/// Exchanges a field with the one at a place. Returns what that one belonged to.
fn exchange(kept: &mut Vec<Kept>, place: usize, field: &mut Field, ask: Option<Ask>) -> Option<Ask>
    requires { place < length kept.old.items }
    ensures kept { kept.new.items ≡
        slice_set kept.old.items place (record { ask = ask; field = field.old }) }
    ensures found { (d : Kept) → result ≡ (slice_index_or kept.old.items place d).ask }
    ensures field { (d : Kept) → field.new ≡ (slice_index_or kept.old.items place d).field }
{
    let found = kept[place].ask;
    kept[place].ask = ask;
    mem::swap(field, &mut kept[place].field);
    found
}

/// Room for one field, and places for so many more. Out of memory is its only error.
fn room(alloc: Global, w: u8, h: u8, more: usize) -> Result<Vec<Kept>, NoMemory>
    requires { more ≤ FIELDS }
    ensures count { IfOk result (λ kept. length kept.items ≡ 1) }
    ensures empty { IfOk result (λ kept. All (IsRoom w h) kept.items) }
{
    let mut kept = Vec::with_capacity(alloc, more + 1)?;
    kept.push(Kept {
        ask: None,
        field: Field::create(alloc, w, h)?,
    })?;
    Ok(kept)
}

/// Memory for so many fields, which is not written yet. Out of memory is its only error.
fn blocks(alloc: Global, w: u8, h: u8, count: usize) -> Result<Vec<Vec<u32>>, NoMemory> {
    let cells = usize::from(w) * usize::from(h);
    let mut blocks = Vec::with_capacity(alloc, count)?;
    for _block in 0..count {
        blocks.push(Vec::with_capacity(alloc, cells)?)?;
    }
    Ok(blocks)
}

/// Adds room for a field where a place is the last one or past it, if there is memory for one more.
fn widen(kept: &mut Vec<Kept>, spare: &mut Vec<Vec<u32>>, place: usize, w: u8, h: u8)
    requires { 0 < length kept.old.items }
    ensures { IsWidened w h kept.old.items kept.new.items }
{
    if place < kept.len() - 1 || kept.len() == kept.capacity() {
        return;
    }
    let Some(labels) = spare.pop() else {
        return;
    };
    if let Some(field) = Field::within(labels, w, h) {
        kept.push_reserved(Kept { ask: None, field });
    }
}

/// Lets no field belong to anything.
fn forget_all(kept: &mut Vec<Kept>)
    ensures { AreForgotten kept.old.items kept.new.items (length kept.old.items) }
{
    for place in 0..kept.len() {
        kept[place].ask = None;
    }
}
