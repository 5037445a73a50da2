use crate::limits::ORDERS_ROOM;
use crate::order::Order;
use arrayvec::ArrayVec;

/// The room of an [`crate::Orders`]. No place is written for no order or one, which most plays have.
#[derive(Debug, Drop)]
pub(crate) enum HeldOrders {
    /// No order.
    Nothing,
    /// One order.
    One(Order),
    /// Any orders. Places that hold none are written once, when the room is made.
    More(ArrayVec<Order, ORDERS_ROOM>),
}
