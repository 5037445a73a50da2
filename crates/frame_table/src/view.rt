//! What one pass knows. No value of these types is ever made: contracts alone speak of them.
use crate::planned::Planned;
use crate::seen::Seen;
use frame_core::Columns;
use game_orders::Orders;
use std::collections::LinkedList;

/// What a pass has to do with the columns.
pub struct View {
    pub share: u64,
    pub marks: LinkedList<Mark>,
}

/// What a pass has to do with one column.
pub struct Mark {
    pub planned: Planned,
    pub reach: Seen,
    pub known_plays: LinkedList<Orders>,
    pub knows_leave: bool,
    pub loads: u64,
    pub feeds: bool,
    pub made: u64,
    pub held: Columns,
    pub met_plays: LinkedList<Orders>,
    pub met_leave: bool,
}
