ghost use Rattle.std.specs.Prelude.{◌≡◌, ◌<◌, ◌≤◌, map, length, set, All, IfOk, IfErr, IsSome};
ghost use Rattle.std.specs.Prelude.{OnOk};
ghost use Rattle.std.specs.Prelude.{None, Some, Ok};
ghost use Rattle.base.specs.Steps.{IsFault};
ghost use Rattle.yaml_lines.specs.Limits.{nodes_in, IsLowForest};
ghost use Rattle.yaml_lines.specs.Readable.{IsReadableForest};
ghost use Rattle.yaml_lines.specs.Trees.{none, trees_of};
ghost use Rattle.yaml_merge.specs.declared.fault.MergeFault.TheVariants.{NoMemory};
ghost use Rattle.yaml_merge.specs.Merging.{merged_files};
ghost use Rattle.yaml_merge.specs.Resolving.{resolved_tops, resolved_files};
ghost use Rattle.yaml_merge.specs.Kept.{AreKept, AreKeptBefore, slot};
ghost use Rattle.yaml_merge.specs.Places.{width};
ghost use Rattle.yaml_merge.specs.Settled.{IsDistinct, IsSettledForest};
ghost use Rattle.yaml_merge.specs.declared.TheConstants.{MAX_FOREST_NODES};

use crate::fault::MergeFault;
use crate::growing_list::GrowingList;
use crate::hashers::Hashers;
use crate::keeping::{keep, keep_parents, node_at, total_at};
use crate::keyed_list::{KeyedList, complete};
use crate::merging::merge;
use crate::plain::node_over;
use crate::removing::remove_tops;
use crate::resolved::Resolved;
use crate::steps::removes;
use crate::walked::Walked;
use crate::{MAX_FOREST_NODES, MAX_KEPT_NODES};
use base::NoMemory;
use std::alloc::Global;
use std::mem;
use yaml_lines::Forest;

/// Keeps all top-level nodes that are no removals, or finds the first fault of their resolving.
fn keep_tops(
    alloc: Global,
    hashers: &Hashers,
    tops: &KeyedList,
    kept: &mut Vec<Option<Resolved>>,
) -> Result<(), MergeFault>
    requires distinct { IsDistinct (trees_of tops.now.forest) }
    requires are_kept { AreKept (trees_of tops.now.forest) kept.old.items }
    requires long { length kept.old.items ≡ width (trees_of tops.now.forest) }
    ensures are_kept { AreKept (trees_of tops.now.forest) kept.new.items }
    ensures long { length kept.new.items ≡ width (trees_of tops.now.forest) }
    ensures all { OnOk result (AreKeptBefore (width (trees_of tops.now.forest))
        (trees_of tops.now.forest) kept.new.items) }
    ensures fault { IfErr result (λ fault. IsFault NoMemory fault
        (resolved_tops (trees_of tops.now.forest) (trees_of tops.now.forest) none)) }
{
    let mut walked = Walked::none(alloc, tops.forest.nodes.len())?;
    let mut total = 0usize;
    let mut room = MAX_KEPT_NODES;
    for at in 0..tops.forest.nodes.len() {
        let node = node_at(&tops.forest, at);
        if removes(node.key.as_str().as_bytes()) {
            continue;
        }
        let order = walked.parents_first(alloc, tops, at)?;
        keep_parents(alloc, hashers, tops, kept, &mut room, order);
        keep(alloc, hashers, tops, kept, &mut room, at)?;
        total = total
            .saturating_add(total_at(kept.as_slice(), at))
            .saturating_add(1);
        if total > MAX_FOREST_NODES {
            return Err(MergeFault::TooLarge { place: node.place });
        }
    }
    Ok(())
}

/// The top-level nodes that are no removals, each with what is kept of it, in order.
fn take_tops(
    alloc: Global,
    tops: &KeyedList,
    kept: &mut Vec<Option<Resolved>>,
) -> Result<Forest, MergeFault>
    requires are_kept { AreKept (trees_of tops.now.forest) kept.old.items }
    requires long { length kept.old.items ≡ width (trees_of tops.now.forest) }
    requires all { AreKeptBefore (width (trees_of tops.now.forest)) (trees_of tops.now.forest)
        kept.old.items }
    ensures done { IfOk result (λ forest. resolved_tops (trees_of tops.now.forest)
        (trees_of tops.now.forest) none ≡ Ok (trees_of forest)) }
    ensures fault { IfErr result (λ fault. IsFault NoMemory fault
        (resolved_tops (trees_of tops.now.forest) (trees_of tops.now.forest) none)) }
{
    let mut nodes = Vec::new(alloc);
    let mut total = 0usize;
    for at in 0..tops.forest.nodes.len() {
        let node = node_at(&tops.forest, at);
        if removes(node.key.as_str().as_bytes()) {
            continue;
        }
        let held = take_at(kept, at);
        total = total.saturating_add(held.total).saturating_add(1);
        if total > MAX_FOREST_NODES {
            return Err(MergeFault::TooLarge { place: node.place });
        }
        nodes.push(node_over(node, held.children)?)?;
    }
    Ok(Forest { nodes })
}

/// Takes what is kept of the node at a place.
fn take_at(kept: &mut Vec<Option<Resolved>>, at: usize) -> Resolved
    requires place { at < length kept.old.items }
    requires kept { IsSome (slot kept.old.items at) }
    ensures taken { slot kept.old.items at ≡ Some result }
    ensures left { kept.new.items ≡ set kept.old.items at None }
{
    mem::replace(&mut kept[at], None).unwrap()
}

/// Resolves the top-level nodes that are no removals, in order.
fn resolve_tops(alloc: Global, hashers: &Hashers, tops: &KeyedList) -> Result<Forest, MergeFault>
    requires distinct { IsDistinct (trees_of tops.now.forest) }
    ensures done { IfOk result (λ forest. resolved_tops (trees_of tops.now.forest)
        (trees_of tops.now.forest) none ≡ Ok (trees_of forest)) }
    ensures fault { IfErr result (λ fault. IsFault NoMemory fault
        (resolved_tops (trees_of tops.now.forest) (trees_of tops.now.forest) none)) }
{
    let mut kept = vacant(alloc, tops)?;
    keep_tops(alloc, hashers, tops, &mut kept)?;
    take_tops(alloc, tops, &mut kept)
}

/// Nothing kept of any node.
fn vacant(alloc: Global, tops: &KeyedList) -> Result<Vec<Option<Resolved>>, NoMemory>
    ensures are_kept { IfOk result (λ kept. AreKept (trees_of tops.now.forest) kept.items) }
    ensures long { IfOk result (λ kept. length kept.items ≡ width (trees_of tops.now.forest)) }
{
    let mut kept = Vec::with_capacity(alloc, tops.forest.nodes.len())?;
    for _node in &tops.forest.nodes {
        kept.push(None)?;
    }
    Ok(kept)
}

/// All files as one list.
fn merge_files(alloc: Global, hashers: &Hashers, files: &[Forest]) -> Result<GrowingList, NoMemory>
    ensures { IfOk result (λ level. merged_files (map trees_of files.now) none ≡ level) }
{
    let mut list = GrowingList::new(alloc);
    for file in files {
        list = merge(alloc, hashers, file, list)?;
    }
    Ok(list)
}

/// The nodes of all files as one list that grows no more.
fn merged_list(alloc: Global, hashers: &Hashers, files: &[Forest]) -> Result<KeyedList, NoMemory>
    ensures { IfOk result (λ made.
        trees_of made.forest ≡ merged_files (map trees_of files.now) none) }
{
    if let [file] = files {
        if let Some(made) = KeyedList::of_file(alloc, hashers, file)? {
            return Ok(made);
        }
    }
    let list = merge_files(alloc, hashers, files)?;
    let forest = complete(alloc, list)?;
    KeyedList::of_forest(alloc, hashers, forest)
}

/// Merges the files in order, and resolves what their nodes inherit and remove.
///
/// In each list of the answer a key stands once, and nothing is left to resolve: no node is a
/// removal, and none below the top level is an `Inherits`. Where lines can give the nodes of all
/// files, they can give those of the answer. It has at most `MAX_FOREST_NODES` nodes, and where all
/// files have at most `MAX_LEVELS` levels, so has it.
///
/// The fault is the first in the order of resolving: the top-level nodes that are no removals, in
/// order, each with the nodes below it in order, and then the removals at the top level. At an
/// `Inherits` the order is: `NoParent`, `Cycle`, `TooDeep` where the path has `MAX_PATH` names
/// already, the faults inside the parent, `TooDeep` where a node of the parent would stand at level
/// `MAX_LEVELS`, `TooLarge`. At a removal `NothingToRemove` comes where the list so far has no such
/// node. `TooLarge` comes after a node below the top level where its list has more than
/// `MAX_LIST_NODES` nodes then, and after a top-level node where the forest has more than
/// `MAX_FOREST_NODES` then. `NoMemory` means out of memory, and may come in place of any answer.
#[tactic(auto, unfolding(crate::specs::Resolving::resolved_files))]
pub fn resolve(alloc: Global, files: &[Forest]) -> Result<Forest, MergeFault>
    ensures done { IfOk result (λ forest. resolved_files (map trees_of files.now)
        ≡ Ok (trees_of forest)) }
    ensures settled { IfOk result IsSettledForest }
    ensures readable { All IsReadableForest files.now → IfOk result IsReadableForest }
    ensures nodes { IfOk result (λ forest. nodes_in forest ≤ MAX_FOREST_NODES) }
    ensures low { All IsLowForest files.now → IfOk result IsLowForest }
    ensures fault { IfErr result (λ fault. IsFault NoMemory fault
        (resolved_files (map trees_of files.now))) }
{
    let hashers = Hashers::of(files);
    let tops = merged_list(alloc, &hashers, files)?;
    let done = resolve_tops(alloc, &hashers, &tops)?;
    remove_tops(alloc, &hashers, &tops.forest, done)
}
