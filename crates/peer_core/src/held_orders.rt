use game_orders::{Order, Orders};

/// The room of a play's orders. Most plays have at most one, which needs no room of its own.
#[derive(Debug, Drop)]
pub(crate) enum HeldOrders {
    /// No order.
    Nothing,
    /// One order.
    One(Order),
    /// Two orders or more.
    More(Box<Orders>),
}
