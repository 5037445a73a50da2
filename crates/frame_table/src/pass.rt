use crate::view::View;
use atomic_table::Seat;
use frame_core::Columns;

/// What a thread calls a [`FrameTable`](crate::FrameTable) with. It has no bytes: contracts speak
/// of what the pass has seen and knows of each column (`specs/Part.antt`).
#[derive(Drop)]
pub struct Pass {
    pub(crate) seat: Seat<Option<Columns>, View>,
}
