ghost use Rattle.std.specs.Prelude.{◌≡◌, ◌+◌, ◌<◌, ◌≤◌, ◌==◌, [], length, not, true, filter};
ghost use Rattle.std.specs.Prelude.{slice_range, IfOk};
ghost use Rattle.std.specs.List.{list_any, AllPairs};

use crate::listed::{ID_NUMBERS, KIND_NUMBERS, Listed};
use base::NoMemory;
use game_model::{Actor, MAX_ACTORS};
use std::alloc::Global;
use std::marker::Model;

/// The actors by owner and kind, each list by rising id: one sorted list of all.
#[derive(Drop)]
pub(crate) struct KindIndex {
    entries: Vec<Listed>,
}

impl Model for KindIndex {
    ghost use Rattle.std.specs.Prelude.{List, vec_capacity};
    ghost use Rattle.actor_table.specs.declared.listed.Listed.{Listed};

    ghost Value = { List Listed };

    ghost use Rattle.actor_table.specs.Kinds.{IsSortedIndex};

    ghost view = { λ index. index.entries.items };

    ghost invariant = { λ index. IsSortedIndex (vec_capacity index.entries) index.entries.items };
}

impl KindIndex {
    ghost use Rattle.actor_table.specs.Kinds.{is_listed, next_number, GainsId, IsNextListed};
    ghost use Rattle.actor_table.specs.Kinds.{ListsActors, MovesId};

    /// No actors, with room for [`MAX_ACTORS`]. Out of memory is its only error.
    pub(crate) fn create(alloc: Global) -> Result<KindIndex, NoMemory>
        ensures { IfOk result (λ index. index ≡ []) }
    {
        Ok(KindIndex {
            entries: Vec::with_capacity(alloc, MAX_ACTORS)?,
        })
    }

    /// These actors, whose ids rise, with room for [`MAX_ACTORS`]; sorted once. Out of memory is
    /// its only error.
    pub(crate) fn filled(alloc: Global, actors: &[Actor]) -> Result<KindIndex, NoMemory>
        requires count { length actors.now ≤ MAX_ACTORS }
        requires rise { AllPairs (λ (a b : Actor). a.id < b.id) actors.now }
        ensures { IfOk result (λ index. ListsActors index actors.now) }
    {
        let mut entries = Vec::with_capacity(alloc, MAX_ACTORS)?;
        for actor in actors {
            entries.push_reserved(Listed::of(actor));
        }
        entries.sort_unstable_by_key(|e| e.rank());
        Ok(KindIndex { entries })
    }

    /// The actors of an owner and a kind, by rising id; found by halving.
    pub(crate) fn of(&self, owner: u8, kind: u16) -> &[Listed]
        ensures { result.now ≡ filter (is_listed owner kind) self.now }
    {
        let first = Listed { owner, kind, id: 0 }.rank();
        let end = first + ID_NUMBERS;
        let from = self.entries.partition_point(|e| e.rank() < first);
        let to = self.entries.partition_point(|e| e.rank() < end);
        part(&self.entries, from, to)
    }

    /// The least kind above one, or of all, of which an owner has an actor; found by halving.
    /// `None` exactly where there is none.
    pub(crate) fn next_kind(&self, owner: u8, above: Option<u16>) -> Option<u16>
        ensures { IsNextListed self.now owner (next_number above) result }
    {
        let from = match above {
            Some(kind) => u64::from(kind) + 1,
            None => 0,
        };
        self.kind_from(owner, from)
    }

    /// The least kind from a number on of which an owner has an actor.
    fn kind_from(&self, owner: u8, from: u64) -> Option<u16>
        requires { from ≤ KIND_NUMBERS }
        ensures { IsNextListed self.now owner from result }
    {
        let first = (u64::from(owner) * KIND_NUMBERS + from) * ID_NUMBERS;
        let at = self.entries.partition_point(|e| e.rank() < first);
        if at < self.entries.len() && self.entries[at].owner == owner {
            Some(self.entries[at].kind)
        } else {
            None
        }
    }

    /// Adds an actor at its place. There is room.
    pub(crate) fn insert(&mut self, owner: u8, kind: u16, id: u32)
        requires { length self.old < MAX_ACTORS }
        ensures count { length self.new ≡ length self.old + 1 }
        ensures ids { GainsId self.old self.new owner kind id }
    {
        let entry = Listed { owner, kind, id };
        let rank = entry.rank();
        let at = self.entries.partition_point(|other| other.rank() < rank);
        let Ok(()) = self.entries.insert(at, entry) else {
            unreachable!()
        };
    }

    /// Takes the actor of an id out, if it is there.
    pub(crate) fn remove(&mut self, id: u32)
        ensures rest { self.new ≡ filter (λ (e : Listed). not (e.id == id)) self.old }
        ensures limit { length self.old ≤ MAX_ACTORS }
    {
        self.entries.retain(|e| e.id != id);
    }

    /// Lists an actor, which is there, under another owner, if that is another.
    pub(crate) fn set_owner(&mut self, from: u8, to: u8, kind: u16, id: u32)
        requires { list_any (λ (e : Listed). e.id == id) self.old ≡ true }
        ensures count { length self.new ≤ length self.old }
        ensures ids { MovesId self.old self.new from to kind id }
    {
        if from != to {
            self.remove(id);
            self.insert(to, kind, id);
        }
    }
}

/// The entries from one place up to another.
fn part(entries: &[Listed], from: usize, to: usize) -> &[Listed]
    requires ordered { from ≤ to }
    requires within { to ≤ length entries.now }
    ensures { result.now ≡ slice_range entries.now from to }
{
    &entries[from..to]
}
