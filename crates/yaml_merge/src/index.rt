ghost use Rattle.std.specs.Prelude.{◌≡◌, ◌++◌, ◌∷◌, [], true, MatchOption, OnOk, OnErr, IfOk};
ghost use Rattle.std.specs.Prelude.{List, ℕ};
ghost use Rattle.std.specs.HashMap.{get};
ghost use Rattle.std.specs.Str.{bytes_eq};
ghost use Rattle.yaml_merge.specs.Slots.{Finds, Forgets, IsFound, IsWhole, LacksKey, StandsAt};
ghost use Rattle.yaml_merge.specs.Slots.{holds};
ghost use Rattle.yaml_merge.specs.declared.growing_list.Slot.{Slot};

use crate::growing_list::Slot;
use crate::hashers::Hashers;
use base::NoMemory;
use std::alloc::Global;
use std::boxed::Box;
use std::collections::HashMap;
use yaml_lines::Text;

/// How many slots are searched one by one: the index of a longer list knows them all.
const MOST_SEARCHED: usize = 8;

/// Where the keys of a long list stand. A short list has none.
#[derive(Drop)]
pub struct Index {
    pub(crate) places: Option<Box<HashMap<Text, usize, Hashers>>>,
}

/// Whether a slot holds a key.
fn is_held(slot: &Slot, key: &str) -> bool
    ensures { result ≡ holds key.now slot.now }
{
    slot.live && slot.key.as_str() == key
}

/// The place of the first slot that holds a key, found by going over all slots.
#[tactic(auto, using(crate::proofs::IndexSteps::search_steps))]
fn search(slots: &[Slot], key: &str) -> Option<usize>
    ensures { MatchOption result (LacksKey key.now slots.now)
        (λ at. StandsAt key.now at slots.now) }
{
    for (at, slot) in slots.iter().enumerate() {
        if is_held(slot, key) {
            return Some(at);
        }
    }
    None
}

impl Index {
    /// The index of a list without slots.
    pub fn new() -> Index
        ensures { Finds result [] }
    {
        Index { places: None }
    }

    /// The place of the slot that holds a key.
    pub fn find(&self, slots: &[Slot], key: &Text) -> Option<usize>
        requires { Finds self.now slots.now }
        ensures { MatchOption result (LacksKey key.now slots.now)
            (λ at. StandsAt key.now at slots.now) }
    {
        match &self.places {
            Some(places) => places.get(key).copied(),
            None => search(slots, key.as_str()),
        }
    }

    /// The index of the slots after one more with this key, which none of them has.
    pub fn add(
        &mut self,
        alloc: Global,
        hashers: &Hashers,
        slots: &[Slot],
        key: &Text,
    ) -> Result<(), NoMemory>
        requires finds { Finds self.old slots.now }
        requires whole { IsWhole slots.now }
        requires lacks { LacksKey key.now slots.now }
        ensures added { OnOk result ((slot : Slot) → slot.key ≡ key.now → slot.live ≡ true →
            Finds self.new (slots.now ++ slot ∷ [])) }
        ensures same { OnErr result (Finds self.new slots.now) }
    {
        match &mut self.places {
            Some(places) => {
                places.insert(key.copy()?, slots.len())?;
            }
            None => {
                if slots.len() < MOST_SEARCHED {
                    return Ok(());
                }
                let mut places = places_of(alloc, hashers, slots)?;
                places.insert(key.copy()?, slots.len())?;
                self.places = Some(Box::new(alloc, places)?);
            }
        }
        Ok(())
    }

    /// Forgets the key of a slot that dies.
    pub fn remove(&mut self, key: &Text)
        ensures { Forgets key.now self.old self.new }
    {
        if let Some(places) = &mut self.places {
            places.remove(key);
        }
    }
}

/// The places of all keys.
fn places_of(
    alloc: Global,
    hashers: &Hashers,
    slots: &[Slot],
) -> Result<HashMap<Text, usize, Hashers>, NoMemory>
    requires { IsWhole slots.now }
    ensures { IfOk result (λ places. (key : List ℕ) → IsFound key slots.now
        (get bytes_eq places key)) }
{
    let mut places = HashMap::with_hasher(alloc, *hashers);
    for (at, slot) in slots.iter().enumerate() {
        if slot.live {
            places.insert(slot.key.copy()?, at)?;
        }
    }
    Ok(places)
}
