//! Rules, maps and bytes from texts.

ghost use Rattle.std.specs.Prelude.{◌<◌};

use game_model::Map;
use map_grid::read_map;
use rule_traits::{Rules, type_rules};
use std::alloc::{AllocError, Global};
use std::test::Fail;
use yaml_lines::{Forest, parse};
use yaml_merge::resolve;

/// The resolved forest of a text.
fn forest_of(alloc: Global, text: &str) -> Result<Forest, Fail> {
    let mut files = Vec::new(alloc);
    files.push(parse(alloc, 0, text.as_bytes())?)?;
    Ok(resolve(alloc, files.as_slice())?)
}

/// The rules of a text.
pub(crate) fn rules_of(alloc: Global, text: &str) -> Result<Rules, Fail> {
    let forest = forest_of(alloc, text)?;
    let (rules, _) = type_rules(alloc, &forest)?;
    Ok(rules)
}

/// The map of a text.
pub(crate) fn map_of(alloc: Global, text: &str, rules: &Rules) -> Result<Map, Fail> {
    let forest = forest_of(alloc, text)?;
    Ok(read_map(alloc, &forest, rules)?)
}

/// The number that a hexadecimal digit stands for.
fn digit(character: u8) -> u8
    ensures { result < 16 }
{
    match character {
        b'0'..=b'9' => character - b'0',
        b'a'..=b'f' => character - b'a' + 10,
        _ => 0,
    }
}

/// The bytes that hexadecimal digits spell.
pub(crate) fn bytes_of(alloc: Global, digits: &str) -> Result<Vec<u8>, AllocError> {
    let mut out = Vec::new(alloc);
    for pair in digits.as_bytes().chunks_exact(2) {
        out.push(16 * digit(pair[0]) + digit(pair[1]))?;
    }
    Ok(out)
}
