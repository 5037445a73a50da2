ghost use Rattle.std.specs.Prelude.{◌≡◌, ℕ, List, IfOk, IfSome, true};
ghost use Rattle.std.specs.HashMap.{get};
ghost use Rattle.std.specs.Str.{bytes_eq};
ghost use Rattle.yaml_lines.specs.Trees.{trees_of, trees_of_nodes};
ghost use Rattle.yaml_merge.specs.Merging.{Lacks};
ghost use Rattle.yaml_merge.specs.Places.{place_in};
ghost use Rattle.yaml_merge.specs.Settled.{IsDistinct, IsOnce};

use crate::hashers::Hashers;
use crate::steps::same;
use base::NoMemory;
use std::alloc::Global;
use std::collections::HashMap;
use yaml_lines::{Forest, Node, Text};

/// How many nodes are compared with each other: the keys of a longer list are put into a map.
const MOST_COMPARED: usize = 8;

/// Whether no node has this key.
#[tactic(auto, using(crate::proofs::DistinctSteps::distinct_steps))]
fn lacks(nodes: &[Node], key: &[u8]) -> bool
    ensures { result ≡ true → Lacks key.now (trees_of_nodes nodes.now) }
{
    for node in nodes {
        if same(node.key.as_str().as_bytes(), key) {
            return false;
        }
    }
    true
}

/// Whether each key stands once in a short list.
fn few_once(nodes: &[Node]) -> bool
    ensures { result ≡ true → IsOnce (trees_of_nodes nodes.now) }
{
    for (at, node) in nodes.iter().enumerate() {
        if !lacks(&nodes[at + 1..], node.key.as_str().as_bytes()) {
            return false;
        }
    }
    true
}

/// Where each key stands, if each stands once.
pub fn names_once(
    alloc: Global,
    hashers: &Hashers,
    nodes: &[Node],
) -> Result<Option<HashMap<Text, usize, Hashers>>, NoMemory>
    ensures named { IfOk result (λ found. IfSome found (λ names. (name : List ℕ) →
        get bytes_eq names name ≡ place_in name (trees_of_nodes nodes.now))) }
    ensures once { IfOk result (λ found. IfSome found (λ names.
        IsOnce (trees_of_nodes nodes.now))) }
{
    let mut names = HashMap::with_hasher(alloc, *hashers);
    for (at, node) in nodes.iter().enumerate() {
        if names.contains_key(&node.key) {
            return Ok(None);
        }
        names.insert(node.key.copy()?, at)?;
    }
    Ok(Some(names))
}

/// Whether each key stands once in a list.
fn is_once(alloc: Global, hashers: &Hashers, nodes: &[Node]) -> Result<bool, NoMemory>
    ensures { IfOk result (λ once. once ≡ true → IsOnce (trees_of_nodes nodes.now)) }
{
    if nodes.len() <= MOST_COMPARED {
        return Ok(few_once(nodes));
    }
    match names_once(alloc, hashers, nodes)? {
        Some(_) => Ok(true),
        None => Ok(false),
    }
}

/// Whether each key stands once in its list, in all lists below these nodes.
#[cycle(distinct)]
pub fn are_distinct(alloc: Global, hashers: &Hashers, nodes: &[Node]) -> Result<bool, NoMemory>
    ensures { IfOk result (λ distinct. distinct ≡ true → IsOnce (trees_of_nodes nodes.now) →
        IsDistinct (trees_of_nodes nodes.now)) }
{
    for node in nodes {
        if !is_distinct(alloc, hashers, &node.children)? {
            return Ok(false);
        }
    }
    Ok(true)
}

/// Whether each key stands once in the list, and in each list below it.
#[cycle(distinct)]
pub fn is_distinct(alloc: Global, hashers: &Hashers, list: &Forest) -> Result<bool, NoMemory>
    ensures { IfOk result (λ distinct. distinct ≡ true → IsDistinct (trees_of list.now)) }
{
    let nodes = list.nodes.as_slice();
    if nodes.is_empty() {
        return Ok(true);
    }
    if !is_once(alloc, hashers, nodes)? {
        return Ok(false);
    }
    are_distinct(alloc, hashers, nodes)
}
