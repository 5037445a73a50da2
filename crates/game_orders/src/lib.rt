//! Orders, entries and frames: what the clients of a match send, and what a world is stepped by.
//!
//! A client seals at most [`MAX_ORDERS`] orders for one frame. Its entry for a frame is a play of
//! such orders or its departure, and a frame has one entry for each client. [`PerClient`] has any
//! other value for each client. All of them are held in place. Lists are seen as lists, and two
//! orders or entries are equal exactly where they are the same.
//!
//! Orders have one spelling as bytes, a tag and the fields (`specs/OrderBytes.antt`), which
//! [`write_order`] and [`write_orders`] append and [`read_order`] and [`read_orders`] read. What
//! was written is read back, whatever follows it, and what was read is the spelling of what it
//! gave. Only these writers take memory.
#![tactic(auto)]

mod entry;
mod frame;
mod held_orders;
mod law;
mod limits;
mod order;
mod order_fault;
mod order_length;
mod order_reading;
mod order_writing;
mod orders;
mod orders_fault;
mod orders_reading;
mod orders_writing;
mod per_client;

pub use entry::Entry;
pub use frame::Frame;
pub use law::{order_is_read_back, orders_are_read_back};
pub use limits::{MAX_CLIENTS, MAX_FRAMES, MAX_LAG, MAX_ORDERS};
pub use order::Order;
pub use order_fault::OrderFault;
pub use order_length::orders_length;
pub use order_reading::read_order;
pub use order_writing::{order_fits, write_order};
pub use orders::Orders;
pub use orders_fault::OrdersFault;
pub use orders_reading::read_orders;
pub use orders_writing::{orders_fit, write_orders};
pub use per_client::PerClient;
