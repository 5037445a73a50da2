//! Entries of a client.

use game_orders::{Entry, Order, Orders};

/// A play without orders.
pub(crate) fn play() -> Entry {
    Entry::Play(Orders::empty())
}

/// A play with one order.
pub(crate) fn donation() -> Entry {
    let mut orders = Orders::empty();
    let _ = orders.try_push(Order::Donate { to: 1, amount: 1 });
    Entry::Play(orders)
}
