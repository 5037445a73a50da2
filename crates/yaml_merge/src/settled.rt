//! A file that is its own result.

ghost use Rattle.std.specs.Prelude.{◌≡◌, [], ◌∷◌, IfOk, IfErr, IsTrue, Ok};
ghost use Rattle.yaml_lines.specs.Trees.{trees_of, trees_of_nodes};
ghost use Rattle.yaml_merge.specs.declared.fault.MergeFault.TheVariants.{NoMemory};
ghost use Rattle.base.specs.Steps.{IsFault};
ghost use Rattle.yaml_merge.specs.Laws.{IsPlainTop, IsSmall};
ghost use Rattle.yaml_merge.specs.Resolving.{resolved_files};

use crate::distinct::is_distinct;
use crate::fault::MergeFault;
use crate::files::resolve;
use crate::hashers::Hashers;
use crate::plain::plain_count;
use crate::steps::removes;
use crate::{MAX_FOREST_NODES, MAX_LIST_NODES};
use std::alloc::Global;
use yaml_lines::{Forest, Node};

/// Whether no top-level node is a removal, nothing below them is inherited or removed, and no list
/// is too large.
fn are_plain(nodes: &[Node]) -> bool
    ensures plain { IsTrue result → IsPlainTop (trees_of_nodes nodes.now) }
    ensures small { IsTrue result → IsSmall (trees_of_nodes nodes.now) }
{
    let mut total = 0usize;
    for node in nodes {
        if removes(node.key.as_str().as_bytes()) {
            return false;
        }
        let Some(below) = plain_count(&node.children) else {
            return false;
        };
        if below > MAX_LIST_NODES {
            return false;
        }
        total += 1 + below;
        if total > MAX_FOREST_NODES {
            return false;
        }
    }
    true
}

/// Resolves a file that is read alone, as `resolve` does, but copies nothing where the file is its
/// own result: where each key stands once in its list and nothing is inherited or removed.
pub fn resolve_file(alloc: Global, file: Forest) -> Result<Forest, MergeFault>
    ensures done { IfOk result (λ forest.
        resolved_files (trees_of file ∷ []) ≡ Ok (trees_of forest)) }
    ensures fault { IfErr result (λ fault. IsFault NoMemory fault
        (resolved_files (trees_of file ∷ []))) }
{
    let hashers = Hashers::of_one(&file);
    if are_plain(file.nodes.as_slice()) && is_distinct(alloc, &hashers, &file)? {
        return Ok(file);
    }
    resolve(alloc, &[file])
}
