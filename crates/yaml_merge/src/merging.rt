ghost use Rattle.std.specs.Prelude.{◌≡◌, IfOk};
ghost use Rattle.yaml_lines.specs.Trees.{trees_of};
ghost use Rattle.yaml_merge.specs.Merging.{merged_into};

use crate::growing_list::GrowingList;
use crate::hashers::Hashers;
use crate::sizes::is_leaf;
use base::NoMemory;
use std::alloc::Global;
use yaml_lines::Forest;

/// Takes the nodes of the first list in order into the second.
pub fn merge(
    alloc: Global,
    hashers: &Hashers,
    new: &Forest,
    old: GrowingList,
) -> Result<GrowingList, NoMemory>
    ensures { IfOk result (λ level. level ≡ merged_into (trees_of new.now) old) }
{
    let mut list = old;
    for node in &new.nodes {
        if is_leaf(&node.children) {
            list.join_leaf(alloc, hashers, &node.key, &node.value, node.place)?;
            continue;
        }
        let children = list.take(alloc, &node.key);
        let children = merge(alloc, hashers, &node.children, children)?;
        list.join(alloc, hashers, &node.key, &node.value, node.place, children)?;
    }
    Ok(list)
}
