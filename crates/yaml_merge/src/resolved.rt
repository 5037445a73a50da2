ghost use Rattle.std.specs.Prelude.{◌≡◌, ◌<◌};
ghost use Rattle.yaml_lines.specs.Trees.{trees_of};
ghost use Rattle.yaml_merge.specs.Merging.{count};
ghost use Rattle.yaml_merge.specs.declared.TheConstants.{MAX_PATH};

use yaml_lines::Forest;

/// What resolving made of the children of a top-level node.
#[derive(Drop)]
pub struct Resolved {
    /// The resolved children.
    pub children: Forest,
    /// The greatest number of names that resolving them adds to the path.
    pub height: usize,
    /// How many nodes they are at all depths.
    pub total: usize,
    ghost low: { height < MAX_PATH },
    ghost counted: { total ≡ count (trees_of children) },
}
