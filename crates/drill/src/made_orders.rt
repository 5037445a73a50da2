//! The orders of the made drill, by draws.
ghost use Rattle.std.specs.Prelude.{◌≡◌, ◌+◌, ◌≤◌, [], ◌∷◌};
ghost use Rattle.drill_words.specs.declared.limits.TheConstants.{MAX_EVENTS};
ghost use Rattle.drill.specs.MadeOrders.{drawn_actor, drawn_cell, drawn_move, drawn_harvest};
ghost use Rattle.drill.specs.MadeOrders.{drawn_produce, drawn_donate, drawn_attack, orders_by};
ghost use Rattle.drill.specs.MadeOrders.{drawn_orders, just};

use crate::made_limits::{
    DRAWN_ACTORS, DRAWN_CASH, DRAWN_KINDS, DRAWN_SIDE, MADE_CLIENTS, ORDER_CHOICES,
};
use drill_words::MAX_EVENTS;
use game_orders::{Order, Orders};
use twister::Twister;
use world_units::CPos;

/// What a client plays: one order, or none.
#[tactic(auto, unfolding(crate::specs::MadeOrders::drawn_orders))]
pub(crate) fn draw_orders(dice: &mut Twister) -> Orders
    requires { dice.old.drawn + 4 ≤ MAX_EVENTS }
    ensures value { (result, dice.new) ≡ drawn_orders dice.old }
    ensures few { dice.new.drawn ≤ dice.old.drawn + 4 }
{
    let choice = dice.below(ORDER_CHOICES);
    orders_by(choice, dice)
}

/// What a client plays by the draw that chooses.
#[tactic(auto, unfolding(crate::specs::MadeOrders::orders_by))]
fn orders_by(choice: u32, dice: &mut Twister) -> Orders
    requires { dice.old.drawn + 3 ≤ MAX_EVENTS }
    ensures value { (result, dice.new) ≡ orders_by choice dice.old }
    ensures few { dice.new.drawn ≤ dice.old.drawn + 3 }
{
    match choice {
        0 => one_order(draw_move(dice)),
        1 => one_order(draw_harvest(dice)),
        2 => one_order(draw_produce(dice)),
        3 => one_order(draw_donate(dice)),
        4 => one_order(draw_attack(dice)),
        _ => Orders::empty(),
    }
}

/// Just this order.
fn one_order(order: Order) -> Orders
    ensures { result ≡ order ∷ [] }
{
    let mut orders = Orders::empty();
    orders.push(order);
    orders
}

#[tactic(auto, unfolding(crate::specs::MadeOrders::drawn_move))]
fn draw_move(dice: &mut Twister) -> Order
    requires { dice.old.drawn + 3 ≤ MAX_EVENTS }
    ensures value { (result, dice.new) ≡ drawn_move dice.old }
    ensures few { dice.new.drawn ≤ dice.old.drawn + 3 }
{
    let actor = draw_actor(dice);
    let cell = draw_cell(dice);
    Order::Move {
        actor,
        cell,
        queued: false,
    }
}

#[tactic(auto, unfolding(crate::specs::MadeOrders::drawn_harvest))]
fn draw_harvest(dice: &mut Twister) -> Order
    requires { dice.old.drawn + 3 ≤ MAX_EVENTS }
    ensures value { (result, dice.new) ≡ drawn_harvest dice.old }
    ensures few { dice.new.drawn ≤ dice.old.drawn + 3 }
{
    let actor = draw_actor(dice);
    let cell = draw_cell(dice);
    Order::Harvest {
        actor,
        cell,
        queued: false,
    }
}

#[tactic(auto, unfolding(crate::specs::MadeOrders::drawn_produce))]
fn draw_produce(dice: &mut Twister) -> Order
    requires { dice.old.drawn + 3 ≤ MAX_EVENTS }
    ensures value { (result, dice.new) ≡ drawn_produce dice.old }
    ensures few { dice.new.drawn ≤ dice.old.drawn + 3 }
{
    let actor = draw_actor(dice);
    let kind = dice.below(DRAWN_KINDS) as u16;
    Order::Produce { actor, kind }
}

#[tactic(auto, unfolding(crate::specs::MadeOrders::drawn_donate))]
fn draw_donate(dice: &mut Twister) -> Order
    requires { dice.old.drawn + 3 ≤ MAX_EVENTS }
    ensures value { (result, dice.new) ≡ drawn_donate dice.old }
    ensures few { dice.new.drawn ≤ dice.old.drawn + 3 }
{
    let to = dice.below(u32::from(MADE_CLIENTS)) as u8;
    let amount = dice.below(DRAWN_CASH);
    Order::Donate { to, amount }
}

#[tactic(auto, unfolding(crate::specs::MadeOrders::drawn_attack))]
fn draw_attack(dice: &mut Twister) -> Order
    requires { dice.old.drawn + 3 ≤ MAX_EVENTS }
    ensures value { (result, dice.new) ≡ drawn_attack dice.old }
    ensures few { dice.new.drawn ≤ dice.old.drawn + 3 }
{
    let actor = draw_actor(dice);
    let target = draw_actor(dice);
    Order::Attack {
        actor,
        target,
        queued: false,
    }
}

/// The id of an actor, from 1 on.
#[tactic(auto, unfolding(crate::specs::MadeOrders::drawn_actor))]
fn draw_actor(dice: &mut Twister) -> u32
    requires { dice.old.drawn + 1 ≤ MAX_EVENTS }
    ensures value { (result, dice.new) ≡ drawn_actor dice.old }
    ensures few { dice.new.drawn ≤ dice.old.drawn + 1 }
{
    1 + dice.below(DRAWN_ACTORS)
}

/// A cell.
#[tactic(auto, unfolding(crate::specs::MadeOrders::drawn_cell))]
fn draw_cell(dice: &mut Twister) -> CPos
    requires { dice.old.drawn + 2 ≤ MAX_EVENTS }
    ensures value { (result, dice.new) ≡ drawn_cell dice.old }
    ensures few { dice.new.drawn ≤ dice.old.drawn + 2 }
{
    let x = dice.below(DRAWN_SIDE) as u8;
    let y = dice.below(DRAWN_SIDE) as u8;
    CPos { x, y }
}
