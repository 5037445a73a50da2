ghost use Rattle.std.specs.Prelude.{◌≡◌, nat_le};
ghost use Rattle.std.specs.Bool.{OnTrue};
ghost use Rattle.yaml_lines.specs.Trees.{none, trees_of};
ghost use Rattle.yaml_merge.specs.Merging.{levels};

use yaml_lines::Forest;

/// Whether the list has no nodes.
#[tactic(auto, using(crate::proofs::NodeSteps::leaf_steps))]
pub fn is_leaf(list: &Forest) -> bool
    ensures { OnTrue result (trees_of list.now ≡ none) }
{
    match list.nodes.as_slice() {
        [] => true,
        _ => false,
    }
}

/// Whether the list has no more than this many levels.
#[tactic(auto, using(crate::proofs::SizeSteps::size_steps))]
pub fn has_levels(forest: &Forest, room: usize) -> bool
    ensures { result ≡ nat_le (levels (trees_of forest.now)) room }
{
    for node in &forest.nodes {
        if room == 0 || !has_levels(&node.children, room - 1) {
            return false;
        }
    }
    true
}
