use crate::place::Place;
use crate::text::Text;

/// A node: a kept line and the nodes below it.
#[derive(Drop)]
#[cycle(forest)]
pub struct Node {
    /// What stands before the first colon.
    pub key: Text,
    /// What stands after it.
    pub value: Text,
    /// Where the node was read. After merging, where it was read last.
    pub place: Place,
    /// The nodes below it, in order.
    pub children: Forest,
}

/// A list of nodes.
#[derive(Drop)]
#[cycle(forest)]
pub struct Forest {
    /// The nodes, in order.
    pub nodes: Vec<Node>,
}
