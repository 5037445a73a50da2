//! Bots: clients that play by a rule.
//!
//! What a bot orders for a frame is a function of the world that has ticked all frames before it
//! (`specs/BotOrders.antt`): actors produce where they can, harvesters harvest, and who has arms
//! attacks the nearest enemy. A bot keeps nothing from one frame to the next, so whoever has the
//! same world makes the same orders.
//!
//! [`bot_orders`] takes a world. [`bot_orders_from`] takes the cash of the clients and whatever
//! lends the actors ([`shroud::LendsActors`]), so a game needs no copy of its world. No memory is
//! taken. The actors are gone over once for the client's orders but the targets of attacks, and
//! once more for these targets, for all attackers at once, where one is to attack. What the client
//! can produce and who its first enemy is are looked for where an actor first asks for them, each
//! by one pass at most. What a kind of producer can produce is looked for once.
#![tactic(auto)]

mod bot;
mod draft;
mod drafting;
mod drafts;
mod kind_flags;
mod law;
mod nth;
mod products;
mod survey;

pub use bot::{bot_orders, bot_orders_from};
pub use law::{attacks_are_on_the_nearest_enemy, products_are_the_least_that_fit};
