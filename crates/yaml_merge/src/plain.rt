ghost use Rattle.std.specs.Prelude.{◌≡◌, ◌≤◌, IfOk, IfSome};
ghost use Rattle.yaml_lines.specs.Trees.{before, more, trees_of};
ghost use Rattle.yaml_lines.specs.declared.forest.Forest.TheViews.{out-Node};
ghost use Rattle.yaml_merge.specs.Laws.{IsPlain};
ghost use Rattle.yaml_merge.specs.Merging.{count};
ghost use Rattle.yaml_merge.specs.declared.TheConstants.{MAX_LIST_NODES};

use crate::MAX_LIST_NODES;
use crate::resolved::Resolved;
use crate::steps::{inherits, removes};
use base::NoMemory;
use std::alloc::Global;
use yaml_lines::{Forest, Node};

/// How many nodes a list has at all depths. `None` where something in it is inherited or removed.
pub fn plain_count(list: &Forest) -> Option<usize>
    ensures plain { IfSome result (λ total. IsPlain (trees_of list.now)) }
    ensures count { IfSome result (λ total. total ≡ count (trees_of list.now)) }
{
    let mut total = 0usize;
    for node in &list.nodes {
        let key = node.key.as_str().as_bytes();
        if inherits(key) || removes(key) {
            return None;
        }
        let Some(below) = plain_count(&node.children) else {
            return None;
        };
        let Some(others) = total.checked_add(1) else {
            return None;
        };
        let Some(next) = others.checked_add(below) else {
            return None;
        };
        total = next;
    }
    Some(total)
}

/// A node with other children, whose texts are not copied.
pub fn node_over(node: &Node, children: Forest) -> Result<Node, NoMemory>
    ensures { IfOk result (λ made. before made ≡ (λ rest. more (out-Node node.now).key
        (out-Node node.now).value (out-Node node.now).place (trees_of children) rest)) }
{
    Ok(Node {
        key: node.key.copy()?,
        value: node.value.copy()?,
        place: node.place,
        children,
    })
}

/// The same list, whose texts are not copied.
pub fn copy_list(alloc: Global, list: &Forest) -> Result<Forest, NoMemory>
    ensures { IfOk result (λ copy. trees_of copy ≡ trees_of list.now) }
{
    let mut nodes = Vec::with_capacity(alloc, list.nodes.len())?;
    for node in &list.nodes {
        let children = copy_list(alloc, &node.children)?;
        nodes.push(node_over(node, children)?)?;
    }
    Ok(Forest { nodes })
}

/// The children of a top-level node as they are resolved, where nothing in them is inherited or
/// removed: the same list, unless it is too large.
pub fn plain_resolved(alloc: Global, list: &Forest) -> Result<Option<Resolved>, NoMemory>
    ensures plain { IfOk result (λ found. IfSome found (λ made. IsPlain (trees_of list.now))) }
    ensures small { IfOk result (λ found. IfSome found (λ made.
        count (trees_of list.now) ≤ MAX_LIST_NODES)) }
    ensures same { IfOk result (λ found. IfSome found (λ made.
        trees_of made.children ≡ trees_of list.now)) }
    ensures height { IfOk result (λ found. IfSome found (λ made. made.height ≡ 0)) }
{
    match plain_count(list) {
        Some(total) if total <= MAX_LIST_NODES => {
            let children = copy_list(alloc, list)?;
            Ok(Some(Resolved {
                children,
                height: 0,
                total,
            }))
        }
        _ => Ok(None),
    }
}
