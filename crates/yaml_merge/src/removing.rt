ghost use Rattle.std.specs.Prelude.{◌≡◌, ◌++◌, ◌∷◌, [], None, Some, if◌then◌else◌, true, false};
ghost use Rattle.std.specs.Prelude.{IfOk, IfErr, OnOk, Ok, drop, get_or, replicate};
ghost use Rattle.base.specs.Steps.{IsFault};
ghost use Rattle.yaml_lines.specs.Trees.{Trees, trees_of, trees_of_nodes};
ghost use Rattle.yaml_merge.specs.declared.fault.MergeFault.TheVariants.{NoMemory};
ghost use Rattle.yaml_merge.specs.Merging.{without};
ghost use Rattle.yaml_merge.specs.Removing.{TakesFlag, left_by};
ghost use Rattle.yaml_merge.specs.Resolving.{removed_tops};
ghost use Rattle.yaml_merge.specs.Settled.{IsOnce};

use crate::fault::MergeFault;
use crate::hashers::Hashers;
use crate::keyed_list::KeyedList;
use crate::steps::{removal, removes};
use base::NoMemory;
use std::alloc::Global;
use yaml_lines::{Forest, Node, Text};

/// Takes back the flag of a place, and says whether it was set.
fn take_flag(flags: &mut [bool], at: usize) -> bool
    ensures { TakesFlag at flags.old flags.new result }
{
    if at < flags.len() && flags[at] {
        flags[at] = false;
        return true;
    }
    false
}

/// Takes back the flag of the node with a key, and says whether it was set.
fn take_named(list: &KeyedList, flags: &mut [bool], key: &Text) -> bool
    requires once { IsOnce (trees_of list.now.forest) }
    ensures { without key.now (left_by flags.old (trees_of list.now.forest))
        ≡ (if result then Some (left_by flags.new (trees_of list.now.forest)) else None) }
{
    match list.find(key) {
        Some(at) => take_flag(flags, at),
        None => false,
    }
}

/// Takes back the flag of the node with a key that is the end of a removal's key.
fn take_ending(
    alloc: Global,
    list: &KeyedList,
    flags: &mut [bool],
    removal: &Text,
    key: &str,
) -> Result<bool, NoMemory>
    requires once { IsOnce (trees_of list.now.forest) }
    ensures { IfOk result (λ found. without key.now (left_by flags.old (trees_of list.now.forest))
        ≡ (if found then Some (left_by flags.new (trees_of list.now.forest)) else None)) }
{
    let key = removal.ending(alloc, key)?;
    Ok(take_named(list, flags, &key))
}

/// So many flags, all set.
fn all_set(alloc: Global, len: usize) -> Result<Vec<bool>, NoMemory>
    ensures { IfOk result (λ flags. flags.items ≡ replicate len true) }
{
    vec![in alloc; true; len]
}

/// A flag for each node of a list: set where no top-level removal names it.
fn flags_left(alloc: Global, tops: &Forest, list: &KeyedList) -> Result<Vec<bool>, MergeFault>
    requires once { IsOnce (trees_of list.now.forest) }
    ensures done { IfOk result (λ flags. removed_tops (trees_of tops.now) (trees_of list.now.forest)
        ≡ Ok (left_by flags.items (trees_of list.now.forest))) }
    ensures fault { IfErr result (λ fault. IsFault NoMemory fault
        (removed_tops (trees_of tops.now) (trees_of list.now.forest))) }
{
    let mut flags = all_set(alloc, list.forest.nodes.len())?;
    for node in &tops.nodes {
        let Some(key) = removal(node.key.as_str()) else {
            continue;
        };
        if !take_ending(alloc, list, flags.as_mut_slice(), &node.key, key)? {
            return Err(MergeFault::NothingToRemove { place: node.place });
        }
    }
    Ok(flags)
}

/// The first flag, and those after it.
fn next_flag(flags: &[bool]) -> (bool, &[bool])
    ensures first { result.0 ≡ get_or flags.now 0 false }
    ensures rest { result.1.now ≡ drop 1 flags.now }
{
    match flags {
        [first, rest @ ..] => (*first, rest),
        [] => (false, flags),
    }
}

/// Adds a node last, if it is to be kept.
fn push_if(nodes: &mut Vec<Node>, keep: bool, node: Node) -> Result<(), NoMemory>
    ensures { OnOk result
        (nodes.new.items ≡ (if keep then nodes.old.items ++ node ∷ [] else nodes.old.items)) }
{
    if keep {
        nodes.push(node)?;
    }
    Ok(())
}

/// The nodes of a list whose flags are set.
fn nodes_left(alloc: Global, all: Vec<Node>, flags: &[bool]) -> Result<Vec<Node>, NoMemory>
    ensures { IfOk result (λ nodes. trees_of_nodes nodes.items
        ≡ left_by flags.now (trees_of_nodes all.items)) }
{
    let mut nodes = Vec::new(alloc);
    let mut left = flags;
    for node in all {
        let (keep, rest) = next_flag(left);
        left = rest;
        push_if(&mut nodes, keep, node)?;
    }
    Ok(nodes)
}

/// The list of the nodes whose flags are set.
fn forest_left(alloc: Global, list: Forest, flags: &[bool]) -> Result<Forest, NoMemory>
    ensures { IfOk result (λ forest. trees_of forest ≡ left_by flags.now (trees_of list)) }
{
    let Forest { nodes: all } = list;
    let nodes = nodes_left(alloc, all, flags)?;
    Ok(Forest { nodes })
}

/// Whether some top-level node is a removal.
fn has_removals(tops: &Forest) -> bool
    ensures { result ≡ false → (list : Trees) → removed_tops (trees_of tops.now) list ≡ Ok list }
{
    for node in &tops.nodes {
        if removes(node.key.as_str().as_bytes()) {
            return true;
        }
    }
    false
}

/// Removes what the top-level removals name, in order.
pub fn remove_tops(
    alloc: Global,
    hashers: &Hashers,
    tops: &Forest,
    list: Forest,
) -> Result<Forest, MergeFault>
    requires once { IsOnce (trees_of list) }
    ensures done { IfOk result (λ forest. removed_tops (trees_of tops.now) (trees_of list)
        ≡ Ok (trees_of forest)) }
    ensures fault { IfErr result (λ fault. IsFault NoMemory fault
        (removed_tops (trees_of tops.now) (trees_of list))) }
{
    if !has_removals(tops) {
        return Ok(list);
    }
    let list = KeyedList::of_forest(alloc, hashers, list)?;
    let flags = flags_left(alloc, tops, &list)?;
    Ok(forest_left(alloc, list.forest, flags.as_slice())?)
}
