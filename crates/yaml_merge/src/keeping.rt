ghost use Rattle.std.specs.Prelude.{IsSome, IfSome, ◌≡◌, ◌<◌, ◌≤◌, ◌+◌, ◌-◌, [], get_or, IfOk};
ghost use Rattle.std.specs.Prelude.{IfErr, MatchBool};
ghost use Rattle.std.specs.Prelude.{MatchOption, ⊤, OnOk, length, set, Some, None};
ghost use Rattle.base.specs.Steps.{IsFault};
ghost use Rattle.yaml_lines.specs.Trees.{none, trees_of};
ghost use Rattle.yaml_lines.specs.declared.forest.Forest.TheViews.{out-Forest, out-Node};
ghost use Rattle.yaml_merge.specs.declared.fault.MergeFault.TheVariants.{NoMemory};
ghost use Rattle.yaml_merge.specs.declared.resolved.Resolved.{Resolved};
ghost use Rattle.yaml_merge.specs.Kept.{AreKept, Gives, IsNext, StayKept, Stops, slot, resolved_at};
ghost use Rattle.yaml_merge.specs.Places.{width};
ghost use Rattle.yaml_merge.specs.Merging.{count};
ghost use Rattle.yaml_merge.specs.Resolving.{resolved_list};
ghost use Rattle.yaml_merge.specs.Settled.{IsDistinct};

use crate::MAX_PATH;
use crate::fault::MergeFault;
use crate::growing_list::GrowingList;
use crate::hashers::Hashers;
use crate::keyed_list::{KeyedList, complete};
use crate::plain::plain_resolved;
use crate::resolved::Resolved;
use crate::resolving::resolve_list;
use crate::scene::Scene;
use crate::stop::Stop;
use base::NoMemory;
use std::alloc::Global;
use yaml_lines::{Forest, MAX_LEVELS, Node, Text};

/// A complete list as it is kept.
fn resolved_of(alloc: Global, list: GrowingList, height: usize) -> Result<Resolved, NoMemory>
    requires { height < MAX_PATH }
    ensures children { IfOk result (λ made. trees_of made.children ≡ list) }
    ensures height { IfOk result (λ made. made.height ≡ height) }
{
    let total = list.total();
    let children = complete(alloc, list)?;
    Ok(Resolved {
        children,
        height,
        total,
    })
}

/// Resolves the children of a top-level node, whose name the path has.
fn resolve_top(alloc: Global, scene: &Scene<'_>, node: &Node) -> Result<Resolved, Stop>
    requires distinct { IsDistinct (trees_of (out-Node node.now).children) }
    requires are_kept { AreKept (trees_of scene.now.tops.now.forest) scene.now.kept.now }
    ensures done { IfOk result (λ made. Gives (trees_of scene.now.tops.now.forest)
        scene.now.kept.now made.height (λ free path. resolved_list free
        (trees_of (out-Node node.now).children) (MAX_LEVELS - 1)
        (trees_of scene.now.tops.now.forest) path none) (trees_of made.children)) }
    ensures bound { IfOk result (λ made. made.height ≤ scene.now.free) }
    ensures stop { IfErr result (λ stop. Stops (trees_of scene.now.tops.now.forest)
        scene.now.kept.now scene.now.free scene.now.path.now stop
        (resolved_list scene.now.free (trees_of (out-Node node.now).children) (MAX_LEVELS - 1)
        (trees_of scene.now.tops.now.forest) scene.now.path.now none)) }
{
    if let Some(made) = plain_resolved(alloc, &node.children)? {
        return Ok(made);
    }
    let mut high = 0usize;
    let start = GrowingList::new(alloc);
    let list = resolve_list(
        alloc,
        scene,
        &node.children,
        MAX_LEVELS - 1,
        start,
        &mut high,
    )?;
    Ok(resolved_of(alloc, list, high)?)
}

/// The node at a place.
pub fn node_at(forest: &Forest, at: usize) -> &Node
    requires { at < length (out-Forest forest.now).nodes.items }
    ensures { result.now ≡ get_or (out-Forest forest.now).nodes.items at result.now }
{
    &forest.nodes[at]
}

/// Resolves a top-level node, or the first of the parents in its path that nothing kept serves for,
/// and returns its place with it.
fn next_made(
    alloc: Global,
    hashers: &Hashers,
    tops: &KeyedList,
    kept: &[Option<Resolved>],
    root: usize,
) -> Result<(usize, Resolved), MergeFault>
    requires root { root < width (trees_of tops.now.forest) }
    requires distinct { IsDistinct (trees_of tops.now.forest) }
    requires are_kept { AreKept (trees_of tops.now.forest) kept.now }
    requires long { length kept.now ≡ width (trees_of tops.now.forest) }
    requires vacant { slot kept.now root ≡ None }
    ensures next { IfOk result (λ next. IsNext (trees_of tops.now.forest) kept.now next.0 next.1) }
    ensures fault { IfErr result (λ fault. IsFault NoMemory fault
        (resolved_at (trees_of tops.now.forest) root (MAX_PATH - 1) [])) }
{
    let mut at = root;
    let mut free = MAX_PATH - 1;
    let mut path: Vec<Text> = Vec::new(alloc);
    'parents: loop {
        let node = node_at(&tops.forest, at);
        path.push(node.key.copy()?)?;
        let scene = Scene {
            tops,
            kept,
            path: path.as_slice(),
            hashers,
            free,
        };
        match resolve_top(alloc, &scene, node) {
            Ok(made) => return Ok((at, made)),
            Err(stop) => match stop {
                Stop::Fault(fault) => return Err(fault),
                Stop::Parent(next) => {
                    at = next;
                    free -= 1;
                }
            },
        }
    }
}

/// What is kept of the node at a place.
pub fn held_at(kept: &[Option<Resolved>], at: usize) -> Option<&Resolved>
    ensures { MatchOption result (slot kept.now at ≡ None)
        (λ held. slot kept.now at ≡ Some held.now) }
{
    match kept.get(at) {
        Some(Some(held)) => Some(held),
        _ => None,
    }
}

/// Whether the node at a place is kept.
fn is_kept(kept: &[Option<Resolved>], at: usize) -> bool
    ensures { MatchBool result (IsSome (slot kept.now at)) (slot kept.now at ≡ None) }
{
    match held_at(kept, at) {
        Some(_) => true,
        None => false,
    }
}

/// Keeps what the node at a place resolves to.
fn set_at(kept: &mut Vec<Option<Resolved>>, at: usize, made: Resolved)
    requires { at < length kept.old.items }
    ensures { kept.new.items ≡ set kept.old.items at (Some made) }
{
    kept[at] = Some(made);
}

/// How many nodes are kept below a top-level node.
pub fn total_at(kept: &[Option<Resolved>], at: usize) -> usize
    ensures { MatchOption (slot kept.now at) ⊤ (λ held. result ≡ count (trees_of held.children)) }
{
    match held_at(kept, at) {
        Some(held) => held.total,
        None => 0,
    }
}

/// How many more nodes may be kept once a list of `new` nodes takes the place of one of `old`.
fn room_after(room: usize, old: usize, new: usize) -> Option<usize>
    ensures { IfSome result (λ left. left + new ≡ room + old) }
{
    room.checked_add(old)?.checked_sub(new)
}

/// Keeps a top-level node, and what has to be resolved before it. `room` says how many more nodes
/// may be kept.
pub fn keep(
    alloc: Global,
    hashers: &Hashers,
    tops: &KeyedList,
    kept: &mut Vec<Option<Resolved>>,
    room: &mut usize,
    root: usize,
) -> Result<(), MergeFault>
    requires root { root < width (trees_of tops.now.forest) }
    requires distinct { IsDistinct (trees_of tops.now.forest) }
    requires are_kept { AreKept (trees_of tops.now.forest) kept.old.items }
    requires long { length kept.old.items ≡ width (trees_of tops.now.forest) }
    ensures are_kept { AreKept (trees_of tops.now.forest) kept.new.items }
    ensures long { length kept.new.items ≡ width (trees_of tops.now.forest) }
    ensures kept { OnOk result (IsSome (slot kept.new.items root)) }
    ensures stay { StayKept kept.old.items kept.new.items }
    ensures fault { IfErr result (λ fault. IsFault NoMemory fault
        (resolved_at (trees_of tops.now.forest) root (MAX_PATH - 1) [])) }
{
    'vacant: while !is_kept(kept.as_slice(), root) {
        let (at, made) = next_made(alloc, hashers, tops, kept.as_slice(), root)?;
        let old = total_at(kept.as_slice(), at);
        let Some(left) = room_after(*room, old, made.total) else {
            return Err(MergeFault::NoMemory);
        };
        *room = left;
        set_at(kept, at, made);
    }
    Ok(())
}

/// Keeps top-level nodes, in order, up to the first that has a fault or for which no room is left.
pub fn keep_parents(
    alloc: Global,
    hashers: &Hashers,
    tops: &KeyedList,
    kept: &mut Vec<Option<Resolved>>,
    room: &mut usize,
    order: Vec<usize>,
)
    requires distinct { IsDistinct (trees_of tops.now.forest) }
    requires are_kept { AreKept (trees_of tops.now.forest) kept.old.items }
    requires long { length kept.old.items ≡ width (trees_of tops.now.forest) }
    ensures are_kept { AreKept (trees_of tops.now.forest) kept.new.items }
    ensures long { length kept.new.items ≡ width (trees_of tops.now.forest) }
    ensures stay { StayKept kept.old.items kept.new.items }
{
    for at in order {
        if at >= kept.len() {
            continue;
        }
        if keep(alloc, hashers, tops, kept, room, at).is_err() {
            return;
        }
    }
}
