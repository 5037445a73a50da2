use crate::keyed_list::KeyedList;
use crate::steps::{inherits, removes};
use base::NoMemory;
use std::alloc::Global;
use yaml_lines::Forest;

/// A step of the walk over the top-level nodes.
#[derive(Clone, Copy)]
enum Walk {
    /// A node whose parents come first.
    Enter(usize),
    /// A node whose parents have come.
    Leave(usize),
}

/// Adds the parents that a list names, at all depths, the last first.
fn push_parents(tops: &KeyedList, list: &Forest, walk: &mut Vec<Walk>) -> Result<(), NoMemory> {
    for node in list.nodes.iter().rev() {
        let key = node.key.as_str().as_bytes();
        if inherits(key) {
            if let Some(parent) = tops.place_of(&node.value) {
                walk.push(Walk::Enter(parent))?;
            }
        } else if !removes(key) {
            push_parents(tops, &node.children, walk)?;
        }
    }
    Ok(())
}

/// The places of the top-level nodes that have been walked over.
#[derive(Drop)]
pub struct Walked {
    entered: Vec<bool>,
}

impl Walked {
    /// The places of a tree with so many top-level nodes, before any is walked over. Out of memory
    /// is its only error.
    pub fn none(alloc: Global, nodes: usize) -> Result<Walked, NoMemory> {
        let mut entered: Vec<bool> = Vec::new(alloc);
        entered.resize(nodes, false)?;
        Ok(Walked { entered })
    }

    /// The places of the parents of a top-level node in the order of resolving: each comes before
    /// the nodes that inherit it, unless they inherit each other. What was walked over before is
    /// left out.
    pub fn parents_first(
        &mut self,
        alloc: Global,
        tops: &KeyedList,
        root: usize,
    ) -> Result<Vec<usize>, NoMemory> {
        let mut order = Vec::new(alloc);
        let mut walk = Vec::new(alloc);
        walk.push(Walk::Enter(root))?;
        for _ in 0..u64::MAX {
            match walk.pop() {
                Some(Walk::Enter(at)) => {
                    if let (Some(seen), Some(node)) = (
                        self.entered.get_mut(at),
                        tops.forest.nodes.get(at),
                    ) {
                        if !*seen {
                            *seen = true;
                            walk.push(Walk::Leave(at))?;
                            push_parents(tops, &node.children, &mut walk)?;
                        }
                    }
                }
                Some(Walk::Leave(at)) => {
                    if at != root {
                        order.push(at)?;
                    }
                }
                None => break,
            }
        }
        Ok(order)
    }
}
