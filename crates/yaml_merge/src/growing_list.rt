ghost use Rattle.std.specs.Prelude.{◌≡◌, ◌<◌, [], OnOk, if◌then◌else◌, Some, None};
ghost use Rattle.yaml_lines.specs.Trees.{none};
ghost use Rattle.yaml_merge.specs.Places.{emptied};
ghost use Rattle.yaml_merge.specs.Merging.{count, children_at, joined, newer_value, without};
ghost use Rattle.yaml_merge.specs.Slots.{Finds};

use crate::hashers::Hashers;
use crate::index::Index;
use base::NoMemory;
use std::alloc::{AllocError, Global};
use std::marker::Model;
use std::mem;
use yaml_lines::{Place, Text};

/// A list of nodes that grows, seen as plain trees. It has a slot for each node that was added, in
/// order, and the slots of removed nodes stay in it, dead.
#[derive(Drop)]
#[cycle(growing)]
pub struct GrowingList {
    pub(crate) slots: Vec<Slot>,
    pub(crate) index: Index,
    pub(crate) total: usize,
}

/// The place of a node in a list that grows.
#[derive(Drop)]
#[cycle(growing)]
pub struct Slot {
    /// Its key.
    pub key: Text,
    /// Its value.
    pub value: Text,
    /// Where it was read last.
    pub place: Place,
    /// The nodes below it.
    pub children: GrowingList,
    /// Whether the node is there: one that was removed is not, and has no children.
    pub live: bool,
}

impl Model for GrowingList {
    ghost use Rattle.std.specs.Prelude.{◌≡◌};
    ghost use Rattle.yaml_lines.specs.Trees.{Trees};
    ghost use Rattle.yaml_merge.specs.Codes.{trees_code};

    ghost Value = { Trees };

    ghost coded = { trees_code };

    ghost use Rattle.yaml_merge.specs.Slots.{standing, Finds, IsWhole, NoneLeft};
    ghost use Rattle.yaml_merge.specs.Merging.{count};

    ghost view = { λ list. standing list.slots.items };

    ghost invariant = { λ list. IsWhole list.slots.items
        × (list.total ≡ count (standing list.slots.items)) × Finds list.index list.slots.items
        × NoneLeft list.slots.items list.total };

    ghost size = { count };

    ghost use Rattle.std.proofs.Common.{◌∙◌};
    ghost use Rattle.yaml_merge.specs.SlotFalls.{falls};

    ghost size_decreases = { λ list h. falls list h.0 (λ e. h.3 (h.1 ∙ e)) };
}

impl GrowingList {
    /// The empty list.
    pub fn new(alloc: Global) -> Self
        ensures { result ≡ none }
    {
        GrowingList {
            slots: Vec::new(alloc),
            index: Index::new(),
            total: 0,
        }
    }

    /// How many nodes the list has at all depths.
    pub fn total(&self) -> usize
        ensures { result ≡ count self.now }
    {
        self.total
    }

    /// Takes the children under a key out of the list: none where no node has the key.
    pub fn take(&mut self, alloc: Global, key: &Text) -> GrowingList
        ensures children { result ≡ children_at key.now self.old }
        ensures left { self.new ≡ emptied key.now self.old }
    {
        match self.index.find(self.slots.as_slice(), key) {
            Some(at) => {
                let slot = &mut self.slots[at];
                let children = mem::replace(&mut slot.children, GrowingList::new(alloc));
                self.total -= children.total();
                children
            }
            None => GrowingList::new(alloc),
        }
    }

    /// Joins a node to the list: the node with its key gets the value, unless that is empty, and
    /// the place and the children; where there is none, the node is added last.
    pub fn join(
        &mut self,
        alloc: Global,
        hashers: &Hashers,
        key: &Text,
        value: &Text,
        place: Place,
        children: GrowingList,
    ) -> Result<(), NoMemory>
        ensures { OnOk result (self.new ≡ joined key.now value.now place (λ _. children) self.old) }
    {
        let value = value.copy()?;
        match self.index.find(self.slots.as_slice(), key) {
            Some(at) => {
                let slot = &mut self.slots[at];
                let others = self.total - slot.children.total();
                let Some(total) = others.checked_add(children.total()) else {
                    return Err(AllocError);
                };
                renew(&mut slot.value, value);
                slot.place = place;
                slot.children = children;
                self.total = total;
                Ok(())
            }
            None => {
                let Some(others) = self.total.checked_add(1) else {
                    return Err(AllocError);
                };
                let Some(total) = others.checked_add(children.total()) else {
                    return Err(AllocError);
                };
                let key = key.copy()?;
                self.slots.reserve(1)?;
                self.index.add(alloc, hashers, self.slots.as_slice(), &key)?;
                self.slots.push_reserved(Slot {
                    key,
                    value,
                    place,
                    children,
                    live: true,
                });
                self.total = total;
                Ok(())
            }
        }
    }

    /// Joins a node without children to the list: the node with its key keeps the children that it
    /// has.
    pub fn join_leaf(
        &mut self,
        alloc: Global,
        hashers: &Hashers,
        key: &Text,
        value: &Text,
        place: Place,
    ) -> Result<(), NoMemory>
        ensures { OnOk result
            (self.new ≡ joined key.now value.now place (λ below. below) self.old) }
    {
        let value = value.copy()?;
        match self.index.find(self.slots.as_slice(), key) {
            Some(at) => {
                let slot = &mut self.slots[at];
                renew(&mut slot.value, value);
                slot.place = place;
                Ok(())
            }
            None => {
                let Some(total) = self.total.checked_add(1) else {
                    return Err(AllocError);
                };
                let key = key.copy()?;
                self.slots.reserve(1)?;
                self.index.add(alloc, hashers, self.slots.as_slice(), &key)?;
                let children = GrowingList::new(alloc);
                self.slots.push_reserved(Slot {
                    key,
                    value,
                    place,
                    children,
                    live: true,
                });
                self.total = total;
                Ok(())
            }
        }
    }

    /// Removes the node with this key, and says whether there was one.
    pub fn remove(&mut self, alloc: Global, key: &Text) -> bool
        ensures { without key.now self.old ≡ (if result then Some self.new else None) }
    {
        match self.index.find(self.slots.as_slice(), key) {
            Some(at) => {
                self.index.remove(key);
                let slot = &mut self.slots[at];
                let children = mem::replace(&mut slot.children, GrowingList::new(alloc));
                slot.live = false;
                self.total -= 1 + children.total();
                drop_dead(&mut self.slots, &mut self.index, self.total);
                true
            }
            None => false,
        }
    }
}

/// Drops the slots of a list that has no nodes.
fn drop_dead(slots: &mut Vec<Slot>, index: &mut Index, total: usize)
    ensures none { total ≡ 0 → (slots.new.items ≡ []) × Finds index.new [] }
    ensures some { 0 < total → (slots.new.items ≡ slots.old.items) × (index.new ≡ index.old) }
{
    if total == 0 {
        slots.clear();
        *index = Index::new();
    }
}

/// Gives a value that isn't empty in place of the old one.
fn renew(old: &mut Text, new: Text)
    ensures { old.new ≡ newer_value old.old new }
{
    if !new.as_str().is_empty() {
        *old = new;
    }
}
