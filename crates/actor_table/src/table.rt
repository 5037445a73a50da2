ghost use Rattle.std.specs.Prelude.{◌≡◌, ◌<◌, [], ◌∷◌, ◌++◌, length, true, false, Some, is_some};
ghost use Rattle.std.specs.Prelude.{◌↔◌, ◌≢◌, ◌≤◌, slice_get, filter, IfOk, IfSome, IsSome, IsTrue};
ghost use Rattle.std.specs.List.{All, AllPairs};
ghost use Rattle.std.specs.Option.{option_copied, option_map};
ghost use Rattle.game_model.specs.Grid.{IsOn};
ghost use Rattle.game_model.specs.World.{actor_of, ids_of, is_alive, is_occupied, living_of};
ghost use Rattle.actor_table.specs.ActorList.{holder_of};
ghost use Rattle.game_model.specs.ActorChanges.{changed_at, with_body, moved_to};
ghost use Rattle.actor_table.specs.Parts.{with_builds, with_facing, with_first, with_health};
ghost use Rattle.actor_table.specs.Parts.{with_leg, with_load, with_reload, without_first};
ghost use Rattle.actor_table.specs.ActorList.{without_dead_at, without_id};

use crate::cell_index::CellIndex;
use crate::idle_marks::{IdleMarks, is_idle};
use crate::kind_index::KindIndex;
use crate::listed::Listed;
use crate::roster::Roster;
use activities::Activity;
use base::NoMemory;
use game_model::{Actor, ActorList, Body, Builds, Leg, MAX_ACTORS};
use std::alloc::Global;
use std::marker::Model;
use world_units::{CPos, WAngle};

/// The actors of a world, at most [`MAX_ACTORS`], by rising id and by cell. No two hold one cell.
pub struct ActorTable {
    roster: Roster,
    cells: CellIndex,
    kinds: KindIndex,
    idle: IdleMarks,
}

// By hand, so that what drops one needs no proof of how its parts are dropped.
impl Drop for ActorTable {
    fn drop(self) {
        let Self {
            roster: _,
            cells: _,
            kinds: _,
            idle: _,
        } = self;
    }
}

impl Model for ActorTable {
    ghost use Rattle.actor_table.specs.Table.{Table, IsTied};

    ghost Value = { Table };

    ghost view = { λ t. record { width = t.cells.width; height = t.cells.height; actors = t.roster } };

    ghost invariant = { λ t. IsTied t.cells t.kinds t.idle t.roster };
}

impl ActorTable {
    ghost use Rattle.actor_table.specs.Table.{IsTable};
    ghost use Rattle.actor_table.specs.Idle.{IsIdle};
    ghost use Rattle.actor_table.specs.Kinds.{listed_of, next_number, IsNextKind};

    /// No actors on a map of this size, with room for [`MAX_ACTORS`]. Out of memory is its only
    /// error.
    pub fn create(alloc: Global, w: u8, h: u8) -> Result<ActorTable, NoMemory>
        ensures { IfOk result (λ table. table ≡ (record { width = w; height = h; actors = [] })) }
    {
        Ok(ActorTable {
            roster: Roster::create(alloc)?,
            cells: CellIndex::create(alloc, w, h)?,
            kinds: KindIndex::create(alloc)?,
            idle: IdleMarks::create(alloc, MAX_ACTORS)?,
        })
    }

    /// These actors, at most [`MAX_ACTORS`] with rising ids, on cells of the map of which no two
    /// are the same, with room for [`MAX_ACTORS`]. It takes time by the number of cells and of
    /// actors, and a sort of the actors. Out of memory is its only error.
    pub fn filled(alloc: Global, w: u8, h: u8, actors: &[Actor]) -> Result<ActorTable, NoMemory>
        requires count { length actors.now ≤ MAX_ACTORS }
        requires on_map { All (λ (a : Actor). IsOn w h a.cell) actors.now }
        requires rise { AllPairs (λ (a b : Actor). a.id < b.id) actors.now }
        requires apart { AllPairs (λ (a b : Actor). a.cell ≢ b.cell) actors.now }
        ensures { IfOk result (λ table. table ≡ (record {
          width = w;
          height = h;
          actors = actors.now;
        })) }
    {
        let mut table = ActorTable {
            roster: Roster::filled(alloc, actors)?,
            cells: CellIndex::filled(alloc, w, h, actors)?,
            kinds: KindIndex::filled(alloc, actors)?,
            idle: IdleMarks::create(alloc, MAX_ACTORS)?,
        };
        table.mark_all();
        Ok(table)
    }

    /// The number of actors.
    pub fn len(&self) -> usize
        ensures value { result ≡ length self.now.actors }
        ensures list { IsTable self.now }
    {
        let _cells = &self.cells;
        self.roster.len()
    }

    /// True where there is no actor.
    pub fn is_empty(&self) -> bool
        ensures { IsTrue result ↔ (self.now.actors ≡ []) }
    {
        self.roster.len() == 0
    }

    /// The id of the i-th actor by rising id, from 0. `None` exactly where there are not so many.
    pub fn nth(&self, i: usize) -> Option<u32>
        ensures { result ≡ slice_get (ids_of self.now.actors) i }
    {
        self.roster.nth(i)
    }

    /// The i-th actor by rising id, from 0. `None` exactly where there are not so many.
    pub fn nth_actor(&self, i: usize) -> Option<&Actor>
        ensures { option_copied result ≡ slice_get self.now.actors i }
    {
        if i < self.roster.len() {
            Some(self.roster.actor_at(i))
        } else {
            None
        }
    }

    /// Whether it is known that the i-th actor by rising id, from 0, if there are so many, has
    /// nothing to load, to do, to go or to build, so that its step leaves it as it is. It takes no
    /// look at the actor. After [`ActorTable::remove`] it is known of none until its body changes,
    /// or a burial takes somebody out.
    pub fn is_idle_at(&self, i: usize) -> bool
        ensures { result ≡ true → IfSome (slice_get self.now.actors i) IsIdle }
    {
        let _tied = &self.roster;
        self.idle.get(i)
    }

    /// The actor of an id, in logarithmic time. `None` exactly where there is none.
    pub fn get(&self, id: u32) -> Option<&Actor>
        ensures { option_copied result ≡ actor_of self.now.actors id }
    {
        self.roster.get(id)
    }

    /// The living actor of an id, in logarithmic time. `None` exactly where there is none.
    pub fn living(&self, id: u32) -> Option<&Actor>
        ensures living { option_copied result ≡ living_of self.now.actors id }
        ensures found { IfSome result (λ a. Some a.now ≡ actor_of self.now.actors id) }
    {
        let _ids_rise = self.len();
        let Some(a) = self.get(id) else {
            return None;
        };
        if a.body.health > 0 { Some(a) } else { None }
    }

    /// The id of the actor that holds a cell, at once. `None` exactly where there is none, as at
    /// any cell off the map.
    pub fn at_cell(&self, p: CPos) -> Option<u32>
        ensures value { result ≡ holder_of self.now.actors p }
        ensures occupied { is_some result ≡ is_occupied self.now.actors p }
    {
        if p.x < self.cells.width() && p.y < self.cells.height() {
            self.cells.get(p)
        } else {
            None
        }
    }

    /// The actors of an owner and a kind, by rising id, in logarithmic time.
    pub fn of_kind(&self, owner: u8, kind: u16) -> &[Listed]
        ensures { result.now ≡ listed_of self.now.actors owner kind }
    {
        self.kinds.of(owner, kind)
    }

    /// The least kind above one, or of all, of which an owner has an actor, in logarithmic time.
    /// `None` exactly where there is none.
    pub fn next_kind(&self, owner: u8, above: Option<u16>) -> Option<u16>
        ensures { IsNextKind self.now.actors owner (next_number above) result }
    {
        self.kinds.next_kind(owner, above)
    }

    /// Adds an actor. There is room, its cell is on the map and free, and its id is above all ids.
    pub fn insert(&mut self, a: Actor)
        requires room { length self.old.actors < MAX_ACTORS }
        requires column { a.cell.x < self.old.width }
        requires row { a.cell.y < self.old.height }
        requires free { is_occupied self.old.actors a.cell ≡ false }
        requires above { All (λ (other : Actor). other.id < a.id) self.old.actors }
        ensures { self.new ≡ record self.old { actors = self.old.actors ++ a ∷ [] } }
    {
        self.cells.set(a.cell, Some(a.id));
        self.kinds.insert(a.body.owner, a.kind, a.id);
        self.idle.set(self.roster.len(), is_idle(&a.body));
        self.roster.push(a);
    }

    /// Takes the actor of an id out; its cell is then free. `None` exactly where there is none, and
    /// then nothing changes.
    pub fn remove(&mut self, id: u32) -> Option<Actor>
        ensures value { result ≡ actor_of self.old.actors id }
        ensures rest { self.new ≡ record self.old { actors = without_id self.old.actors id } }
    {
        let a = self.roster.remove(id)?;
        self.cells.set(a.cell, None);
        self.kinds.remove(id);
        self.idle.clear();
        Some(a)
    }

    /// Exchanges the body of the actor of an id, which is there, with this one. It takes
    /// logarithmic time, and one pass over the actors where the two have different owners.
    pub fn swap_body(&mut self, id: u32, body: &mut Body)
        requires { IsSome (actor_of self.old.actors id) }
        ensures given { self.new ≡ record self.old {
          actors = with_body self.old.actors id body.old;
        } }
        ensures taken { option_map (λ (a : Actor). a.body) (actor_of self.old.actors id) ≡
            Some body.new }
    {
        let (owner, kind) = self.roster.owner_and_kind(id);
        self.kinds.set_owner(owner, body.owner, kind, id);
        let place = self.roster.place_of(id);
        self.idle.set(place, is_idle(body));
        self.roster.swap_body(id, body);
    }

    /// Puts the actor of an id, which is there, on a leg, or on none.
    pub fn set_leg(&mut self, id: u32, leg: Option<Leg>)
        requires { IsSome (actor_of self.old.actors id) }
        ensures { self.new ≡ record self.old {
          actors = changed_at self.old.actors id (with_leg leg);
        } }
    {
        let place = self.roster.place_of(id);
        self.idle.set(place, false);
        self.roster.set_leg(id, leg);
        self.mark(place);
    }

    /// Turns the actor of an id, which is there, to an angle.
    pub fn set_facing(&mut self, id: u32, facing: WAngle)
        requires { IsSome (actor_of self.old.actors id) }
        ensures { self.new ≡ record self.old {
          actors = changed_at self.old.actors id
              (with_facing facing);
        } }
    {
        let place = self.roster.place_of(id);
        self.idle.set(place, false);
        self.roster.set_facing(id, facing);
        self.mark(place);
    }

    /// Sets the turns until the actor of an id, which is there, can fire again.
    pub fn set_reload(&mut self, id: u32, reload: u16)
        requires { IsSome (actor_of self.old.actors id) }
        ensures { self.new ≡ record self.old {
          actors = changed_at self.old.actors id
              (with_reload reload);
        } }
    {
        let place = self.roster.place_of(id);
        self.idle.set(place, false);
        self.roster.set_reload(id, reload);
        self.mark(place);
    }

    /// Puts an activity in place of the first one of the actor of an id, which is there. It is the
    /// first one also where there was none.
    pub fn set_first(&mut self, id: u32, activity: Activity)
        requires { IsSome (actor_of self.old.actors id) }
        ensures { self.new ≡ record self.old {
          actors = changed_at self.old.actors id
              (with_first activity);
        } }
    {
        let place = self.roster.place_of(id);
        self.idle.set(place, false);
        self.roster.set_first(id, activity);
        self.mark(place);
    }

    /// Takes the first activity, if there is one, of the actor of an id, which is there, out.
    pub fn pop_first(&mut self, id: u32)
        requires { IsSome (actor_of self.old.actors id) }
        ensures { self.new ≡ record self.old {
          actors = changed_at self.old.actors id without_first;
        } }
    {
        let place = self.roster.place_of(id);
        self.idle.set(place, false);
        self.roster.pop_first(id);
        self.mark(place);
    }

    /// Gives the actor of an id, which is there, these builds in place of its own.
    pub fn set_builds(&mut self, id: u32, builds: Builds)
        requires { IsSome (actor_of self.old.actors id) }
        ensures { self.new ≡ record self.old {
          actors = changed_at self.old.actors id
              (with_builds builds);
        } }
    {
        let place = self.roster.place_of(id);
        self.idle.set(place, false);
        self.roster.set_builds(id, builds);
        self.mark(place);
    }

    /// Sets the bales of ore that the actor of an id, which is there, holds.
    pub fn set_load(&mut self, id: u32, load: u16)
        requires { IsSome (actor_of self.old.actors id) }
        ensures { self.new ≡ record self.old {
          actors = changed_at self.old.actors id
              (with_load load);
        } }
    {
        let place = self.roster.place_of(id);
        self.idle.set(place, false);
        self.roster.set_load(id, load);
        self.mark(place);
    }

    /// Sets the hit points of the actor of an id, which is there.
    pub fn set_health(&mut self, id: u32, health: u32)
        requires { IsSome (actor_of self.old.actors id) }
        ensures { self.new ≡ record self.old {
          actors = changed_at self.old.actors id
              (with_health health);
        } }
    {
        let place = self.roster.place_of(id);
        self.idle.set(place, false);
        self.roster.set_health(id, health);
        self.mark(place);
    }

    /// Moves the actor of an id, which is there, to a cell of the map that is free, in logarithmic
    /// time; the cell that it leaves is then free.
    pub fn move_to(&mut self, id: u32, to: CPos)
        requires there { IsSome (actor_of self.old.actors id) }
        requires column { to.x < self.old.width }
        requires row { to.y < self.old.height }
        requires free { is_occupied self.old.actors to ≡ false }
        ensures { self.new ≡ record self.old { actors = moved_to self.old.actors id to } }
    {
        let from = self.roster.cell_of(id);
        self.cells.set(from, None);
        self.cells.set(to, Some(id));
        self.roster.set_cell(id, to);
    }

    /// Takes every actor without health out.
    pub fn bury(&mut self)
        ensures { self.new ≡ record self.old { actors = filter is_alive self.old.actors } }
    {
        let before = self.len();
        self.bury_all();
        if self.len() < before {
            self.mark_all();
        }
    }

    /// Marks who is idle.
    fn mark_all(&mut self)
        ensures { self.new ≡ self.old }
    {
        for i in 0..self.len() {
            self.mark(i);
        }
    }

    /// Marks the i-th actor, if there are so many and it is idle.
    fn mark(&mut self, i: usize)
        ensures { self.new ≡ self.old }
    {
        if i < self.roster.len() {
            let idle = is_idle(&self.roster.actor_at(i).body);
            self.idle.set(i, idle);
        }
    }

    /// Takes every actor without health out.
    fn bury_all(&mut self)
        ensures { self.new ≡ record self.old { actors = filter is_alive self.old.actors } }
    {
        let mut left = self.len();
        while left > 0 {
            left -= 1;
            self.bury_nth(left);
        }
    }

    /// Takes the i-th actor, which is there, out if it has no health.
    fn bury_nth(&mut self, i: usize)
        requires { i < length self.old.actors }
        ensures { self.new ≡ record self.old { actors = without_dead_at self.old.actors i } }
    {
        let a = self.roster.actor_at(i);
        if a.body.health == 0 {
            let id = a.id;
            let _gone = self.remove(id);
        }
    }

    /// The same actors once more, by rising id. Out of memory is its only error.
    pub fn copy_actors(&self, alloc: Global) -> Result<ActorList, NoMemory>
        ensures { IfOk result (λ list. list ≡ self.now.actors) }
    {
        self.roster.copy(alloc)
    }
}
