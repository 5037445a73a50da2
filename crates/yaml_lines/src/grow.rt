ghost use Rattle.std.specs.Prelude.{◌≡◌, ◌<◌, ◌≤◌, ◌+◌, ◌++◌, ◌∷◌, [], length, IfOk, OnOk};
ghost use Rattle.yaml_lines.specs.Found.{words_found};
ghost use Rattle.yaml_lines.specs.Grown.{flat_grown, height};
ghost use Rattle.yaml_lines.specs.Trees.{trees_of, flat};

use crate::forest::{Forest, Node};
use crate::found::Found;
use crate::growing::{Growing, Open};
use crate::place::Place;
use base::NoMemory;
use std::alloc::Global;

/// A forest without nodes.
#[tactic(auto, using(crate::proofs::GrowSteps::grow_steps), unfolding(crate::specs::Grown::flat_grown))]
pub fn start(alloc: Global) -> Growing
    ensures empty { flat_grown result ≡ [] }
    ensures level { height result ≡ 0 }
{
    Growing {
        done: Vec::new(alloc),
        open: Vec::new(alloc),
    }
}

/// Makes the last open node a child of the one before it, or a complete node.
#[tactic(auto, using(crate::proofs::GrowSteps::grow_steps), unfolding(crate::specs::Grown::flat_grown))]
fn close(grown: &mut Growing) -> Result<(), NoMemory>
    requires { 0 < height grown.old }
    ensures same { OnOk result (flat_grown grown.new ≡ flat_grown grown.old) }
    ensures lower { OnOk result (height grown.new + 1 ≡ height grown.old) }
{
    let Some(
        Open {
            key,
            value,
            place,
            nodes,
        },
    ) = grown.open.pop()
    else {
        return Ok(());
    };
    let node = Node {
        key,
        value,
        place,
        children: Forest { nodes },
    };
    match grown.open.pop() {
        Some(mut parent) => {
            parent.nodes.push(node)?;
            grown.open.push(parent)?;
        }
        None => grown.done.push(node)?,
    }
    Ok(())
}

/// Adds the node of a kept line.
#[tactic(auto, using(crate::proofs::GrowSteps::grow_steps), unfolding(crate::specs::Grown::flat_grown))]
pub fn add(alloc: Global, grown: &mut Growing, place: Place, found: Found) -> Result<(), NoMemory>
    requires { found.level ≤ height grown.old }
    ensures added { OnOk result (flat_grown grown.new ≡ flat_grown grown.old ++ record { words = words_found found; place = place } ∷ []) }
    ensures level { OnOk result (height grown.new ≡ found.level + 1) }
{
    let Found { level, key, value } = found;
    while grown.open.len() > level {
        close(grown)?;
    }
    let nodes = Vec::new(alloc);
    grown.open.push(Open {
        key,
        value,
        place,
        nodes,
    })?;
    Ok(())
}

/// The whole forest.
#[tactic(auto, using(crate::proofs::GrowSteps::grow_steps), unfolding(crate::specs::Grown::flat_grown))]
pub fn finish(mut grown: Growing) -> Result<Forest, NoMemory>
    ensures { IfOk result (λ forest. flat 0 (trees_of forest) ≡ flat_grown grown) }
{
    while !grown.open.is_empty() {
        close(&mut grown)?;
    }
    Ok(Forest { nodes: grown.done })
}
