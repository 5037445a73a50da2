ghost use Rattle.std.specs.Prelude.{◌≡◌, ◌<◌, ◌≤◌, ◌+◌, ◌%◌, ◌^◌, ◌⊎◌, true, length, IfOk};
ghost use Rattle.sync_hash.specs.Kept.{has_id, is_at, number_in, numbers_of, numbers_sum};
ghost use Rattle.sync_hash.specs.Kept.{place_for};
ghost use Rattle.sync_hash.specs.Kept.{with_number, with_numbers, without_number};

use crate::actor_bytes::actor_number;
use crate::actor_number::ActorNumber;
use base::NoMemory;
use game_model::{Actor, MAX_ACTORS};
use std::alloc::Global;
use std::marker::Model;

/// The number of each actor by rising id: at most [`MAX_ACTORS`], with the memory for all of them.
#[derive(Drop)]
pub(crate) struct ActorNumbers {
    held: Vec<ActorNumber>,
}

impl Model for ActorNumbers {
    ghost use Rattle.std.specs.Prelude.{List, ◌≤◌, length, vec_capacity};
    ghost use Rattle.sync_hash.specs.declared.actor_number.ActorNumber.{ActorNumber};
    ghost use Rattle.sync_hash.specs.Kept.{RiseFrom};
    ghost use Rattle.game_model.specs.declared.limits.TheConstants.{MAX_ACTORS};

    ghost Value = { List ActorNumber };

    ghost view = { λ numbers. numbers.held.items };

    ghost invariant = { λ numbers. RiseFrom 0 numbers.held.items × (length numbers.held.items ≤
        MAX_ACTORS) × (MAX_ACTORS ≤ vec_capacity numbers.held) };
}

impl ActorNumbers {
    /// The numbers of at most [`MAX_ACTORS`] actors, with the memory for as many. Out of memory is
    /// the only error.
    pub(crate) fn of(alloc: Global, actors: &[Actor]) -> Result<ActorNumbers, NoMemory>
        requires { length actors.now ≤ MAX_ACTORS }
        ensures { IfOk result (λ numbers. numbers ≡ numbers_of actors.now) }
    {
        let held = Vec::with_capacity(alloc, MAX_ACTORS)?;
        let mut numbers = ActorNumbers { held };
        numbers.set_all(actors);
        Ok(numbers)
    }

    /// Puts the numbers of these actors in. There is room for all.
    fn set_all(&mut self, actors: &[Actor])
        requires { length self.old + length actors.now ≤ MAX_ACTORS }
        ensures { self.new ≡ with_numbers self.old actors.now }
    {
        for actor in actors {
            let _before = self.set(actor.id, actor_number(actor));
        }
    }

    /// The sum of all numbers, modulo 2^64.
    pub(crate) fn sum(&self) -> u64
        ensures { result ≡ numbers_sum self.now % 2 ^ 64 }
    {
        let mut sum: u64 = 0;
        for kept in self.held.as_slice() {
            sum = sum.wrapping_add(kept.number);
        }
        sum
    }

    /// The number of actors, at most [`MAX_ACTORS`].
    pub(crate) fn len(&self) -> usize
        ensures value { result ≡ length self.now }
        ensures limit { result ≤ MAX_ACTORS }
    {
        self.held.len()
    }

    /// Puts a number in under an id, or in place of the one that is there, and returns the one that
    /// was there, or 0. There is room, or the id is there.
    pub(crate) fn set(&mut self, id: u32, number: u64) -> u64
        requires { (has_id self.old id ≡ true) ⊎ (length self.old < MAX_ACTORS) }
        ensures after { self.new ≡ with_number self.old id number }
        ensures before { result ≡ number_in self.old id }
        ensures sum { numbers_sum self.new + result ≡ numbers_sum self.old + number }
    {
        let place = self.place_for(id);
        if !self.is_at(place, id) {
            let _room = self.held.insert(place, ActorNumber { id, number });
            return 0;
        }
        let before = self.held[place].number;
        self.held[place] = ActorNumber { id, number };
        before
    }

    /// Takes the number of an id out, if it is there, and returns it, or 0.
    pub(crate) fn remove(&mut self, id: u32) -> u64
        ensures after { self.new ≡ without_number self.old id }
        ensures before { result ≡ number_in self.old id }
        ensures sum { numbers_sum self.new + result ≡ numbers_sum self.old }
    {
        let place = self.place_for(id);
        if !self.is_at(place, id) {
            return 0;
        }
        self.held.remove(place).number
    }

    /// Whether the number at a place is there and that of this id.
    fn is_at(&self, place: usize, id: u32) -> bool
        ensures { result ≡ is_at self.now place id }
    {
        match self.held.get(place) {
            Some(kept) => kept.id == id,
            None => false,
        }
    }

    /// How many ids are below this one, which is its place, or the place for it. It looks first
    /// where the id stands if ids are 1, 2, 3, .. and none has gone.
    fn place_for(&self, id: u32) -> usize
        ensures value { result ≡ place_for self.now id }
        ensures limit { result ≤ length self.now }
    {
        let _rise = &self.held;
        let guess = (id as usize).saturating_sub(1);
        if self.is_at(guess, id) {
            guess
        } else {
            self.place_by_halves(id)
        }
    }

    /// The same, found by halves.
    fn place_by_halves(&self, id: u32) -> usize
        ensures value { result ≡ place_for self.now id }
        ensures limit { result ≤ length self.now }
    {
        self.held.as_slice().partition_point(|kept| kept.id < id)
    }
}
