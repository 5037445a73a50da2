ghost use Rattle.std.specs.Prelude.{◌<◌};
ghost use Rattle.yaml_lines.specs.Trees.{trees_of};
ghost use Rattle.yaml_merge.specs.Kept.{IsClear};
ghost use Rattle.yaml_merge.specs.declared.TheConstants.{MAX_PATH};

use crate::hashers::Hashers;
use crate::keyed_list::KeyedList;
use crate::resolved::Resolved;
use yaml_lines::Text;

/// What a list is resolved among.
#[derive(Clone, Copy)]
pub struct Scene<'a> {
    /// The top-level nodes.
    pub tops: &'a KeyedList,
    /// What is kept of each of them.
    pub kept: &'a [Option<Resolved>],
    /// The names that are being resolved.
    pub path: &'a [Text],
    /// What makes the hashers of indexes.
    pub hashers: &'a Hashers,
    /// How many more names the path may get.
    pub free: usize,
    ghost low: { free < MAX_PATH },
    ghost is_clear: { IsClear (trees_of tops.now.forest) kept.now free path.now },
}
