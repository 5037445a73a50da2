use crate::forest::Node;
use crate::place::Place;
use crate::text::Text;

/// A node that may still get children, and the children that it has.
#[derive(Drop)]
pub struct Open {
    /// Its key.
    pub key: Text,
    /// Its value.
    pub value: Text,
    /// Where it was read.
    pub place: Place,
    /// The children that it has, in order.
    pub nodes: Vec<Node>,
}

/// A forest that grows line by line: the complete nodes at level 0, and the open nodes, each of
/// which is the last child of the one before it.
#[derive(Drop)]
pub struct Growing {
    /// The complete nodes at level 0, in order.
    pub done: Vec<Node>,
    /// The open nodes, by rising level from 0.
    pub open: Vec<Open>,
}
