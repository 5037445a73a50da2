use crate::blocks::Blocks;
use crate::map::Map;
use rule_traits::Rules;

/// What a step asks of the world around its actor.
#[derive(Clone, Copy)]
pub struct Ground<'a> {
    /// The kinds of actors.
    pub rules: &'a Rules,
    /// The map.
    pub map: &'a Map,
    /// The cells on which a building stands.
    pub blocks: &'a Blocks,
}
