ghost use Rattle.std.specs.Prelude.{◌≡◌, None, Some, MatchOption};
ghost use Rattle.yaml_lines.specs.Trees.{trees_of};
ghost use Rattle.map_grid.specs.Fields.{cash_of, field, field_at, is_side, size_of};

use crate::fault::MapFault;
use game_model::{BARE_CASH, MAX_CASH, MAX_SIDE};
use rule_values::{read_cell, read_number};
use yaml_lines::{Forest, Node, Place};

/// The first node of this key. `None` comes exactly where there is none.
#[tactic(auto, using(crate::proofs::EachLemmas::field_steps))]
pub(crate) fn find<'a>(forest: &'a Forest, key: &str) -> Option<&'a Node>
    ensures { MatchOption result (field key.now (trees_of forest.now) ≡ None) (λ node. field key.now
        (trees_of forest.now) ≡ Some (field_at node.now)) }
{
    for node in &forest.nodes {
        if node.key.as_str() == key {
            return Some(node);
        }
    }
    None
}

/// Width and height of a map, each 1 to `MAX_SIDE`. Its fault is `BadField`.
#[tactic(auto, unfolding(crate::specs::Fields::size_of))]
pub(crate) fn read_size(forest: &Forest) -> Result<(u8, u8), MapFault>
    ensures { result ≡ size_of (trees_of forest.now) }
{
    let Some(node) = find(forest, "Size") else {
        return Err(MapFault::BadField {
            place: Place { file: 0, line: 0 },
        });
    };
    match read_cell(node.value.as_str()) {
        Some((width, height)) if is_side(width) && is_side(height) => Ok((width, height)),
        _ => Err(MapFault::BadField { place: node.place }),
    }
}

/// Whether a map may have so many columns or rows.
fn is_side(cells: u8) -> bool
    ensures { result ≡ is_side cells }
{
    (1..=MAX_SIDE).contains(&cells)
}

/// The cash of each client at the start, at most `MAX_CASH`. Its fault is `BadField`.
#[tactic(auto, unfolding(crate::specs::Fields::cash_of))]
pub(crate) fn read_cash(forest: &Forest) -> Result<u32, MapFault>
    ensures { result ≡ cash_of (trees_of forest.now) }
{
    let Some(node) = find(forest, "Cash") else {
        return Ok(BARE_CASH);
    };
    match read_number(node.value.as_str()) {
        Some(cash) if cash <= u64::from(MAX_CASH) => Ok(cash as u32),
        _ => Err(MapFault::BadField { place: node.place }),
    }
}
