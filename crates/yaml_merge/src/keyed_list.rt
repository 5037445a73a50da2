ghost use Rattle.std.specs.Prelude.{◌≡◌, List, ℕ, IfOk, IfSome, MatchOption, None, Some};
ghost use Rattle.std.specs.HashMap.{get};
ghost use Rattle.std.specs.Str.{bytes_eq};
ghost use Rattle.yaml_lines.specs.Trees.{trees_of, trees_of_nodes};
ghost use Rattle.yaml_merge.specs.Places.{Stands, children_from, place_in};
ghost use Rattle.yaml_merge.specs.Merging.{Lacks};
ghost use Rattle.yaml_merge.specs.Resolving.{parent_of};
ghost use Rattle.yaml_merge.specs.Settled.{IsDistinct};

use crate::distinct::{are_distinct, names_once};
use crate::growing_list::{GrowingList, Slot};
use crate::hashers::Hashers;
use crate::plain::copy_list;
use crate::steps::removes;
use base::NoMemory;
use std::alloc::Global;
use std::collections::HashMap;
use yaml_lines::{Forest, Node, Text};

/// A complete list of nodes, whose nodes are found by their keys.
#[derive(Drop)]
pub struct KeyedList {
    /// The nodes, in order.
    pub forest: Forest,
    pub(crate) names: HashMap<Text, usize, Hashers>,
    ghost named: { (name : List ℕ) → get bytes_eq names name ≡ place_in name (trees_of forest) },
}

/// The nodes of a list that grows no more.
pub fn complete(alloc: Global, list: GrowingList) -> Result<Forest, NoMemory>
    ensures { IfOk result (λ forest. trees_of forest ≡ list) }
{
    let GrowingList {
        slots,
        index: _,
        total: _,
    } = list;
    let mut nodes = Vec::with_capacity(alloc, slots.len())?;
    for slot in slots {
        let Slot {
            key,
            value,
            place,
            children,
            live,
        } = slot;
        if live {
            let children = complete(alloc, children)?;
            nodes.push(Node {
                key,
                value,
                place,
                children,
            })?;
        }
    }
    Ok(Forest { nodes })
}

/// Where the first node of each key stands.
fn names_of(
    alloc: Global,
    hashers: &Hashers,
    nodes: &[Node],
) -> Result<HashMap<Text, usize, Hashers>, NoMemory>
    ensures { IfOk result (λ names. (name : List ℕ) → get bytes_eq names name
        ≡ place_in name (trees_of_nodes nodes.now)) }
{
    let mut names = HashMap::with_hasher(alloc, *hashers);
    for (at, node) in nodes.iter().enumerate() {
        if names.contains_key(&node.key) {
            continue;
        }
        names.insert(node.key.copy()?, at)?;
    }
    Ok(names)
}

impl KeyedList {
    /// The nodes of a file in which each key stands once in its list, whose texts are not copied.
    pub fn of_file(
        alloc: Global,
        hashers: &Hashers,
        file: &Forest,
    ) -> Result<Option<KeyedList>, NoMemory>
        ensures same { IfOk result (λ found. IfSome found (λ made.
            trees_of made.forest ≡ trees_of file.now)) }
        ensures distinct { IfOk result (λ found. IfSome found (λ made.
            IsDistinct (trees_of file.now))) }
    {
        let nodes = file.nodes.as_slice();
        if !are_distinct(alloc, hashers, nodes)? {
            return Ok(None);
        }
        let Some(names) = names_once(alloc, hashers, nodes)? else {
            return Ok(None);
        };
        let forest = copy_list(alloc, file)?;
        Ok(Some(KeyedList { forest, names }))
    }

    /// The nodes of a forest.
    pub fn of_forest(
        alloc: Global,
        hashers: &Hashers,
        forest: Forest,
    ) -> Result<KeyedList, NoMemory>
        ensures { IfOk result (λ made. made.forest ≡ forest) }
    {
        let names = names_of(alloc, hashers, forest.nodes.as_slice())?;
        Ok(KeyedList { forest, names })
    }

    /// The place of the first node with a key.
    pub fn find(&self, key: &Text) -> Option<usize>
        ensures { MatchOption result (Lacks key.now (trees_of self.now.forest))
            (λ at. Stands key.now at (trees_of self.now.forest)) }
    {
        self.names.get(key).copied()
    }

    /// The place of the node that a name names. Removals have no name.
    pub fn place_of(&self, name: &Text) -> Option<usize>
        ensures parent { MatchOption result
            (parent_of name.now (trees_of self.now.forest) ≡ None)
            (λ at. parent_of name.now (trees_of self.now.forest)
            ≡ Some (children_from at (trees_of self.now.forest))) }
        ensures stands { IfSome result (λ at. Stands name.now at (trees_of self.now.forest)) }
    {
        if removes(name.as_str().as_bytes()) {
            return None;
        }
        self.find(name)
    }
}
