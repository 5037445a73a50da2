ghost use Rattle.std.specs.Prelude.{◌≡◌, ℕ, ◌<◌, ◌≤◌, [], ◌∷◌, ◌++◌, drop, length, Some, None};
ghost use Rattle.std.specs.Prelude.{slice_get};
ghost use Rattle.std.specs.Prelude.{IfOk, IfErr, IsSome, IfSome};
ghost use Rattle.std.specs.Option.{option_copied, option_map};
ghost use Rattle.std.specs.List.{All, AllPairs};
ghost use Rattle.game_model.specs.World.{actor_of, ids_of};
ghost use Rattle.actor_table.specs.ActorList.{without_id};
ghost use Rattle.game_model.specs.ActorChanges.{changed_at, with_body, moved_to};
ghost use Rattle.actor_table.specs.Parts.{with_builds, with_facing, with_first, with_health};
ghost use Rattle.actor_table.specs.Parts.{with_leg, with_load, with_reload, without_first};
ghost use Rattle.actor_table.specs.Rising.{RisesFrom};

use crate::order;
use crate::place::Place;
use activities::{Activity, Queue};
use base::NoMemory;
use game_model::{Actor, ActorList, Body, Builds, Leg, MAX_ACTORS};
use slab::Slab;
use std::alloc::Global;
use std::marker::Model;
use std::mem;
use world_units::{CPos, WAngle};

/// Actors by rising id, at most [`MAX_ACTORS`]. Each is found by its id in logarithmic time.
#[derive(Drop)]
pub(crate) struct Roster {
    slots: Slab<Actor>,
    order: Vec<Place>,
}

impl Model for Roster {
    ghost use Rattle.std.specs.Prelude.{List, vec_capacity};
    ghost use Rattle.game_model.specs.declared.actor.Actor.{Actor};

    ghost Value = { List Actor };

    ghost use Rattle.actor_table.specs.Places.{actors_in, IsRoster};

    ghost view = { λ r. actors_in r.slots r.order.items };

    ghost invariant = { λ r. IsRoster r.slots (vec_capacity r.order) r.order.items };
}

impl Roster {
    ghost use Rattle.actor_table.specs.Kinds.{owner_and_kind_of};
    ghost use Rattle.actor_table.specs.Search.{IsAt, IsAbsent};

    /// No actors, with room for [`MAX_ACTORS`]. Out of memory is its only error.
    pub(crate) fn create(alloc: Global) -> Result<Roster, NoMemory>
        ensures { IfOk result (λ roster. roster ≡ []) }
    {
        Ok(Roster {
            slots: Slab::with_capacity(alloc, MAX_ACTORS)?,
            order: Vec::with_capacity(alloc, MAX_ACTORS)?,
        })
    }

    /// These actors, whose ids rise, with room for [`MAX_ACTORS`]. Out of memory is its only error.
    pub(crate) fn filled(alloc: Global, actors: &[Actor]) -> Result<Roster, NoMemory>
        requires count { length actors.now ≤ MAX_ACTORS }
        requires rise { AllPairs (λ (a b : Actor). a.id < b.id) actors.now }
        ensures { IfOk result (λ roster. roster ≡ actors.now) }
    {
        let mut roster = Roster::create(alloc)?;
        for actor in actors {
            roster.push(actor.copy());
        }
        Ok(roster)
    }

    /// The number of actors.
    pub(crate) fn len(&self) -> usize
        ensures value { result ≡ length self.now }
        ensures limit { result ≤ MAX_ACTORS }
        ensures rises { RisesFrom (λ (a : Actor). a.id) 0 self.now }
    {
        self.order.len()
    }

    /// The i-th id, from 0. `None` exactly where there are not so many actors.
    pub(crate) fn nth(&self, i: usize) -> Option<u32>
        ensures { result ≡ slice_get (ids_of self.now) i }
    {
        if i < self.order.len() {
            Some(self.order[i].id)
        } else {
            None
        }
    }

    /// Where an id stands in the order. `Err` where there is no such actor.
    fn search(&self, id: u32) -> Result<usize, usize>
        ensures found { IfOk result (IsAt self.now id) }
        ensures absent { IfErr result (λ _. IsAbsent self.now id) }
    {
        order::find(&self.order, id)
    }

    /// The actor of an id. `None` exactly where there is none.
    pub(crate) fn get(&self, id: u32) -> Option<&Actor>
        ensures { option_copied result ≡ actor_of self.now id }
    {
        match self.search(id) {
            Ok(at) => self.slots.get(self.order[at].key),
            Err(_) => None,
        }
    }

    /// Where an id that is there stands in the order.
    pub(crate) fn place_of(&self, id: u32) -> usize
        requires { IsSome (actor_of self.now id) }
        ensures { IsAt self.now id result }
    {
        match self.search(id) {
            Ok(at) => at,
            Err(_) => unreachable!(),
        }
    }

    /// The i-th actor, from 0, which is there.
    pub(crate) fn actor_at(&self, i: usize) -> &Actor
        requires { i < length self.now }
        ensures value { slice_get self.now i ≡ Some result.now }
        ensures rises { RisesFrom (λ (a : Actor). a.id) 0 self.now }
    {
        &self.slots[self.order[i].key]
    }

    /// The cell of the actor of an id, which is there.
    pub(crate) fn cell_of(&self, id: u32) -> CPos
        requires { IsSome (actor_of self.now id) }
        ensures { option_map (λ (a : Actor). a.cell) (actor_of self.now id) ≡ Some result }
    {
        self.slots[self.order[self.place_of(id)].key].cell
    }

    /// The owner and the kind of the actor of an id, which is there.
    pub(crate) fn owner_and_kind(&self, id: u32) -> (u8, u16)
        requires { IsSome (actor_of self.now id) }
        ensures value { option_map owner_and_kind_of (actor_of self.now id) ≡ Some result }
        ensures rises { RisesFrom (λ (a : Actor). a.id) 0 self.now }
    {
        let a = &self.slots[self.order[self.place_of(id)].key];
        (a.body.owner, a.kind)
    }

    /// Adds an actor last. There is room, and its id is above all ids.
    pub(crate) fn push(&mut self, a: Actor)
        requires room { length self.old < MAX_ACTORS }
        requires above { All (λ (other : Actor). other.id < a.id) self.old }
        ensures { self.new ≡ self.old ++ a ∷ [] }
    {
        let id = a.id;
        let key = self.slots.insert_reserved(a);
        self.order.push_reserved(Place { id, key });
    }

    /// Takes the actor of an id out. `None` exactly where there is none, and then nothing changes.
    pub(crate) fn remove(&mut self, id: u32) -> Option<Actor>
        ensures value { result ≡ actor_of self.old id }
        ensures rest { self.new ≡ without_id self.old id }
        ensures rises { RisesFrom (λ (a : Actor). a.id) 0 self.old }
    {
        match self.search(id) {
            Ok(at) => {
                let place = self.order.remove(at);
                Some(self.slots.remove(place.key))
            }
            Err(_) => None,
        }
    }

    /// Exchanges the body of the actor of an id, which is there, with this one.
    pub(crate) fn swap_body(&mut self, id: u32, body: &mut Body)
        requires { IsSome (actor_of self.old id) }
        ensures given { self.new ≡ with_body self.old id body.old }
        ensures taken { option_map (λ (a : Actor). a.body) (actor_of self.old id) ≡ Some body.new }
    {
        let key = self.order[self.place_of(id)].key;
        mem::swap(&mut self.slots[key].body, body);
    }

    /// Puts the actor of an id, which is there, on a cell.
    pub(crate) fn set_cell(&mut self, id: u32, to: CPos)
        requires { IsSome (actor_of self.old id) }
        ensures value { self.new ≡ moved_to self.old id to }
        ensures rises { RisesFrom (λ (a : Actor). a.id) 0 self.old }
    {
        let key = self.order[self.place_of(id)].key;
        self.slots[key].cell = to;
    }

    /// Puts the actor of an id, which is there, on a leg, or on none.
    pub(crate) fn set_leg(&mut self, id: u32, leg: Option<Leg>)
        requires { IsSome (actor_of self.old id) }
        ensures value { self.new ≡ changed_at self.old id (with_leg leg) }
        ensures rises { RisesFrom (λ (a : Actor). a.id) 0 self.old }
    {
        let key = self.order[self.place_of(id)].key;
        self.slots[key].body.leg = leg;
    }

    /// Turns the actor of an id, which is there, to an angle.
    pub(crate) fn set_facing(&mut self, id: u32, facing: WAngle)
        requires { IsSome (actor_of self.old id) }
        ensures value { self.new ≡ changed_at self.old id (with_facing facing) }
        ensures rises { RisesFrom (λ (a : Actor). a.id) 0 self.old }
    {
        let key = self.order[self.place_of(id)].key;
        self.slots[key].body.facing = facing;
    }

    /// Sets the turns until the actor of an id, which is there, can fire again.
    pub(crate) fn set_reload(&mut self, id: u32, reload: u16)
        requires { IsSome (actor_of self.old id) }
        ensures value { self.new ≡ changed_at self.old id (with_reload reload) }
        ensures rises { RisesFrom (λ (a : Actor). a.id) 0 self.old }
    {
        let key = self.order[self.place_of(id)].key;
        self.slots[key].body.reload = reload;
    }

    /// Puts an activity in place of the first one of the actor of an id, which is there. It is the
    /// first one also where there was none.
    pub(crate) fn set_first(&mut self, id: u32, activity: Activity)
        requires { IsSome (actor_of self.old id) }
        ensures value { self.new ≡ changed_at self.old id (with_first activity) }
        ensures rises { RisesFrom (λ (a : Actor). a.id) 0 self.old }
    {
        let key = self.order[self.place_of(id)].key;
        put_first(&mut self.slots[key].body.acts, activity);
    }

    /// Takes the first activity, if there is one, of the actor of an id, which is there, out.
    pub(crate) fn pop_first(&mut self, id: u32)
        requires { IsSome (actor_of self.old id) }
        ensures value { self.new ≡ changed_at self.old id without_first }
        ensures rises { RisesFrom (λ (a : Actor). a.id) 0 self.old }
    {
        let key = self.order[self.place_of(id)].key;
        let _done = self.slots[key].body.acts.pop();
    }

    /// Gives the actor of an id, which is there, these builds in place of its own.
    pub(crate) fn set_builds(&mut self, id: u32, builds: Builds)
        requires { IsSome (actor_of self.old id) }
        ensures value { self.new ≡ changed_at self.old id (with_builds builds) }
        ensures rises { RisesFrom (λ (a : Actor). a.id) 0 self.old }
    {
        let key = self.order[self.place_of(id)].key;
        self.slots[key].body.builds = builds;
    }

    /// Sets the bales of ore that the actor of an id, which is there, holds.
    pub(crate) fn set_load(&mut self, id: u32, load: u16)
        requires { IsSome (actor_of self.old id) }
        ensures value { self.new ≡ changed_at self.old id (with_load load) }
        ensures rises { RisesFrom (λ (a : Actor). a.id) 0 self.old }
    {
        let key = self.order[self.place_of(id)].key;
        self.slots[key].body.load = load;
    }

    /// Sets the hit points of the actor of an id, which is there.
    pub(crate) fn set_health(&mut self, id: u32, health: u32)
        requires { IsSome (actor_of self.old id) }
        ensures value { self.new ≡ changed_at self.old id (with_health health) }
        ensures rises { RisesFrom (λ (a : Actor). a.id) 0 self.old }
    {
        let key = self.order[self.place_of(id)].key;
        self.slots[key].body.health = health;
    }

    /// The same actors once more. Out of memory is its only error.
    pub(crate) fn copy(&self, alloc: Global) -> Result<ActorList, NoMemory>
        ensures { IfOk result (λ list. list ≡ self.now) }
    {
        let mut copies = Vec::with_capacity(alloc, self.order.len())?;
        for place in &self.order {
            copies.push(self.slots[place.key].copy())?;
        }
        Ok(ActorList::from_vec(copies))
    }
}

/// Puts the activity in place of the first, also where there was none.
fn put_first(acts: &mut Queue, activity: Activity)
    ensures { acts.new ≡ activity ∷ drop 1 acts.old }
{
    if acts.head().is_some() {
        acts.set_head(activity);
    } else {
        acts.replace(activity);
    }
}
