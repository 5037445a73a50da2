ghost use Rattle.std.specs.Prelude.{◌≡◌, ◌≤◌, ◌+◌, ◌-◌, IfOk, IfErr, MatchOption, Some};
ghost use Rattle.std.specs.Bool.{OnTrue};
ghost use Rattle.yaml_lines.specs.Trees.{trees_of};
ghost use Rattle.yaml_lines.specs.declared.forest.Forest.TheViews.{out-Node};
ghost use Rattle.yaml_merge.specs.Kept.{AreKept, Gives, Repeats, Stops, slot};
ghost use Rattle.yaml_merge.specs.Resolving.{parent_of, inherit_step, join_step, parents, taken_in};
ghost use Rattle.yaml_merge.specs.Resolving.{resolved_list};
ghost use Rattle.yaml_merge.specs.declared.resolved.Resolved.{Resolved};

use crate::MAX_LIST_NODES;
use crate::fault::MergeFault;
use crate::growing_list::GrowingList;
use crate::keeping::held_at;
use crate::resolved::Resolved;
use crate::scene::Scene;
use crate::sizes::is_leaf;
use crate::steps::{in_path, inherit, inherits, removal, remove, within};
use crate::stop::Stop;
use std::alloc::Global;
use yaml_lines::{Forest, Node};

/// What is kept of the node at a place, where the path may get as many names as it adds.
fn served<'a>(scene: &Scene<'a>, at: usize) -> Option<&'a Resolved>
    ensures { MatchOption result ((held : Resolved) → slot scene.now.kept.now at ≡ Some held →
        scene.now.free ≤ held.height)
        (λ parent. (slot scene.now.kept.now at ≡ Some parent.now)
        × (parent.now.height + 1 ≤ scene.now.free)) }
{
    match held_at(scene.kept, at) {
        Some(parent) => {
            if parent.height < scene.free {
                Some(parent)
            } else {
                None
            }
        }
        None => None,
    }
}

/// Takes an `Inherits` node into a list that is being resolved.
fn inherit_node(
    alloc: Global,
    scene: &Scene<'_>,
    node: &Node,
    room: usize,
    list: GrowingList,
    high: &mut usize,
) -> Result<GrowingList, Stop>
    requires are_kept { AreKept (trees_of scene.now.tops.now.forest) scene.now.kept.now }
    ensures taken { IfOk result (Gives (trees_of scene.now.tops.now.forest) scene.now.kept.now
        high.new (λ free path. inherit_step free room (out-Node node.now).place
        (out-Node node.now).value path (parents free (trees_of scene.now.tops.now.forest) path
        (out-Node node.now).value) list (parent_of (out-Node node.now).value
        (trees_of scene.now.tops.now.forest)))) }
    ensures rises { high.old ≤ high.new }
    ensures bound { high.old ≤ scene.now.free → high.new ≤ scene.now.free }
    ensures stop { IfErr result (λ stop. Stops (trees_of scene.now.tops.now.forest)
        scene.now.kept.now scene.now.free scene.now.path.now stop
        (inherit_step scene.now.free room (out-Node node.now).place (out-Node node.now).value
        scene.now.path.now (parents scene.now.free (trees_of scene.now.tops.now.forest)
        scene.now.path.now (out-Node node.now).value) list
        (parent_of (out-Node node.now).value (trees_of scene.now.tops.now.forest)))) }
{
    let place = node.place;
    let name = node.value.as_str();
    let Some(at) = scene.tops.place_of(&node.value) else {
        return Err(Stop::Fault(MergeFault::NoParent { place }));
    };
    if in_path(name.as_bytes(), scene.path) {
        return Err(Stop::Fault(MergeFault::Cycle { place }));
    }
    if scene.free == 0 {
        return Err(Stop::Fault(MergeFault::TooDeep { place }));
    }
    match served(scene, at) {
        Some(parent) => match inherit(alloc, scene.hashers, room, place, list, parent) {
            Ok(level) => {
                *high = (*high).max(parent.height + 1);
                Ok(level)
            }
            Err(fault) => Err(Stop::Fault(fault)),
        },
        None => Err(Stop::Parent(at)),
    }
}

/// Takes a node that is no `Inherits` and no removal into a list that is being resolved.
#[cycle(resolving)]
fn join_node(
    alloc: Global,
    scene: &Scene<'_>,
    node: &Node,
    room: usize,
    list: GrowingList,
    high: &mut usize,
) -> Result<GrowingList, Stop>
    requires are_kept { AreKept (trees_of scene.now.tops.now.forest) scene.now.kept.now }
    ensures taken { IfOk result (Gives (trees_of scene.now.tops.now.forest) scene.now.kept.now
        high.new (λ free path. join_step (out-Node node.now).key (out-Node node.now).value
        (out-Node node.now).place (λ old. resolved_list free (trees_of (out-Node node.now).children)
        (room - 1) (trees_of scene.now.tops.now.forest) path old) list)) }
    ensures rises { high.old ≤ high.new }
    ensures bound { high.old ≤ scene.now.free → high.new ≤ scene.now.free }
    ensures stop { high.old ≤ scene.now.free → IfErr result
        (λ stop. Stops (trees_of scene.now.tops.now.forest) scene.now.kept.now scene.now.free
        scene.now.path.now stop (join_step (out-Node node.now).key (out-Node node.now).value
        (out-Node node.now).place (λ old. resolved_list scene.now.free
        (trees_of (out-Node node.now).children) (room - 1) (trees_of scene.now.tops.now.forest)
        scene.now.path.now old) list)) }
{
    let mut list = list;
    if is_leaf(&node.children) {
        list.join_leaf(alloc, scene.hashers, &node.key, &node.value, node.place)?;
        return Ok(list);
    }
    let children = list.take(alloc, &node.key);
    let room = room.saturating_sub(1);
    let children = resolve_list(alloc, scene, &node.children, room, children, high)?;
    list.join(
        alloc,
        scene.hashers,
        &node.key,
        &node.value,
        node.place,
        children,
    )?;
    Ok(list)
}

/// Takes one node into a list that is being resolved.
#[cycle(resolving)]
fn take_in(
    alloc: Global,
    scene: &Scene<'_>,
    node: &Node,
    room: usize,
    list: GrowingList,
    high: &mut usize,
) -> Result<GrowingList, Stop>
    requires are_kept { AreKept (trees_of scene.now.tops.now.forest) scene.now.kept.now }
    ensures taken { IfOk result (Gives (trees_of scene.now.tops.now.forest) scene.now.kept.now
        high.new (λ free path. taken_in free room (trees_of scene.now.tops.now.forest) path
        (out-Node node.now).key (out-Node node.now).value (out-Node node.now).place
        (trees_of (out-Node node.now).children) list)) }
    ensures rises { high.old ≤ high.new }
    ensures bound { high.old ≤ scene.now.free → high.new ≤ scene.now.free }
    ensures stop { high.old ≤ scene.now.free → IfErr result
        (λ stop. Stops (trees_of scene.now.tops.now.forest) scene.now.kept.now scene.now.free
        scene.now.path.now stop (taken_in scene.now.free room (trees_of scene.now.tops.now.forest)
        scene.now.path.now (out-Node node.now).key (out-Node node.now).value
        (out-Node node.now).place (trees_of (out-Node node.now).children) list)) }
{
    let key = node.key.as_str();
    if inherits(key.as_bytes()) {
        return inherit_node(alloc, scene, node, room, list, high);
    }
    match removal(key) {
        Some(removed) => match remove(alloc, &node.key, removed, node.place, list) {
            Ok(left) => Ok(left),
            Err(fault) => Err(Stop::Fault(fault)),
        },
        None => join_node(alloc, scene, node, room, list, high),
    }
}

/// Whether a node inherits what the one before it inherits. Then it changes nothing.
fn repeats(before: Option<&Node>, node: &Node) -> bool
    ensures { OnTrue result (Repeats before.entry node.now) }
{
    match before {
        Some(before) => {
            inherits(before.key.as_str().as_bytes())
                && inherits(node.key.as_str().as_bytes())
                && before.value == node.value
        }
        None => false,
    }
}

/// Takes the nodes of a list, in order, into a list that is there. The nodes may take up `room`
/// levels. `high` rises to the greatest number of names that this adds to the path.
#[cycle(resolving)]
pub fn resolve_list(
    alloc: Global,
    scene: &Scene<'_>,
    list: &Forest,
    room: usize,
    start: GrowingList,
    high: &mut usize,
) -> Result<GrowingList, Stop>
    requires are_kept { AreKept (trees_of scene.now.tops.now.forest) scene.now.kept.now }
    ensures done { IfOk result (Gives (trees_of scene.now.tops.now.forest) scene.now.kept.now
        high.new (λ free path. resolved_list free (trees_of list.now) room
        (trees_of scene.now.tops.now.forest) path start)) }
    ensures rises { high.old ≤ high.new }
    ensures bound { high.old ≤ scene.now.free → high.new ≤ scene.now.free }
    ensures stop { high.old ≤ scene.now.free → IfErr result
        (λ stop. Stops (trees_of scene.now.tops.now.forest) scene.now.kept.now scene.now.free
        scene.now.path.now stop (resolved_list scene.now.free (trees_of list.now) room
        (trees_of scene.now.tops.now.forest) scene.now.path.now start)) }
{
    let mut done = start;
    let mut before: Option<&Node> = None;
    for node in &list.nodes {
        if repeats(before, node) {
            continue;
        }
        let next = take_in(alloc, scene, node, room, done, high)?;
        match within(MAX_LIST_NODES, node.place, next) {
            Ok(kept) => done = kept,
            Err(fault) => return Err(Stop::Fault(fault)),
        }
        before = Some(node);
    }
    Ok(done)
}
