//! Reads the orders at the end of a line.
ghost use Rattle.std.specs.Prelude.{◌≡◌, [], MatchResult, Ok, Err};
ghost use Rattle.drill_words.specs.Read.{Takes};
ghost use Rattle.game_orders.specs.declared.limits.TheConstants.{MAX_ORDERS};
ghost use Rattle.drill_words.specs.OrderList.{order_word_at, order_at, orders_from, orders_at};
ghost use Rattle.drill_words.specs.OrderList.{cell_at, u32_at, u8_at};

use crate::order_word::{OrderWord, order_word};
use crate::word_cursor::WordCursor;
use crate::word_fault::WordFault;
use crate::words::is_text;
use game_orders::{MAX_ORDERS, Order, Orders};
use world_units::CPos;

/// Drops all orders.
pub(crate) fn clear(orders: &mut Orders)
    ensures { orders.new ≡ [] }
{
    orders.replace([].as_slice());
}

/// Takes orders with the word `;` between them, or none, to the end of the line, and puts them
/// where there are none.
#[inline(always)]
#[tactic(auto, using(crate::proofs::OrderListLemmas::order_steps))]
pub(crate) fn take_orders_into(
    cursor: &mut WordCursor<'_>,
    orders: &mut Orders,
) -> Result<(), WordFault>
    requires { orders.old ≡ [] }
    ensures { MatchResult result (λ _. orders_at cursor.old ≡ Ok (orders.new, cursor.new))
        (λ fault. orders_at cursor.old ≡ Err fault) }
{
    if cursor.is_done() {
        return Ok(());
    }
    take_some_orders(cursor, orders)
}

/// Takes at least one order as `take_orders_into` does.
#[tactic(auto, using(crate::proofs::OrderListLemmas::order_steps))]
fn take_some_orders(cursor: &mut WordCursor<'_>, orders: &mut Orders) -> Result<(), WordFault>
    requires { orders.old ≡ [] }
    ensures { MatchResult result (λ _. orders_from MAX_ORDERS cursor.old
        ≡ Ok (orders.new, cursor.new))
        (λ fault. orders_from MAX_ORDERS cursor.old ≡ Err fault) }
{
    for _room in 0..MAX_ORDERS {
        let word = take_order_word(cursor)?;
        let order = take_order(word, cursor)?;
        let _ = orders.try_push(order);
        match cursor.next() {
            None => return Ok(()),
            Some(word) if is_text(word, b";".as_slice()) => {}
            Some(_) => return Err(WordFault::BadWord),
        }
    }
    take_order_word(cursor)?;
    Err(WordFault::TooManyOrders)
}

/// Takes the word that begins an order.
#[tactic(auto, unfolding(crate::specs::OrderList::order_word_at))]
fn take_order_word(cursor: &mut WordCursor<'_>) -> Result<OrderWord, WordFault>
    ensures { Takes result cursor.new (order_word_at cursor.old) }
{
    order_word(cursor.required()?).ok_or(WordFault::BadWord)
}

/// Takes what follows the first word of an order.
#[tactic(auto, unfolding(crate::specs::OrderList::order_at))]
fn take_order(word: OrderWord, cursor: &mut WordCursor<'_>) -> Result<Order, WordFault>
    ensures { Takes result cursor.new (order_at word cursor.old) }
{
    match word {
        OrderWord::Move { queued } => {
            let actor = take_u32(cursor)?;
            let cell = take_cell(cursor)?;
            Ok(Order::Move {
                actor,
                cell,
                queued,
            })
        }
        OrderWord::Attack { queued } => {
            let actor = take_u32(cursor)?;
            let target = take_u32(cursor)?;
            Ok(Order::Attack {
                actor,
                target,
                queued,
            })
        }
        OrderWord::Harvest { queued } => {
            let actor = take_u32(cursor)?;
            let cell = take_cell(cursor)?;
            Ok(Order::Harvest {
                actor,
                cell,
                queued,
            })
        }
        OrderWord::Stop => {
            let actor = take_u32(cursor)?;
            Ok(Order::Stop { actor })
        }
        OrderWord::Produce => {
            let actor = take_u32(cursor)?;
            let kind = cursor.number(0, u32::from(u16::MAX))?;
            Ok(Order::Produce {
                actor,
                kind: kind as u16,
            })
        }
        OrderWord::Cancel => {
            let actor = take_u32(cursor)?;
            Ok(Order::Cancel { actor })
        }
        OrderWord::Donate => {
            let to = take_u8(cursor)?;
            let amount = take_u32(cursor)?;
            Ok(Order::Donate { to, amount })
        }
        OrderWord::Pace => {
            let ticks = take_u8(cursor)?;
            Ok(Order::Pace { ticks })
        }
    }
}

/// Takes a cell: its column and its row.
#[tactic(auto, unfolding(crate::specs::OrderList::cell_at))]
fn take_cell(cursor: &mut WordCursor<'_>) -> Result<CPos, WordFault>
    ensures { Takes result cursor.new (cell_at cursor.old) }
{
    let x = take_u8(cursor)?;
    let y = take_u8(cursor)?;
    Ok(CPos { x, y })
}

/// Takes a number of 32 bits.
#[tactic(auto, unfolding(crate::specs::OrderList::u32_at))]
fn take_u32(cursor: &mut WordCursor<'_>) -> Result<u32, WordFault>
    ensures { Takes result cursor.new (u32_at cursor.old) }
{
    cursor.number(0, u32::MAX)
}

/// Takes a number of 8 bits.
#[tactic(auto, unfolding(crate::specs::OrderList::u8_at))]
fn take_u8(cursor: &mut WordCursor<'_>) -> Result<u8, WordFault>
    ensures { Takes result cursor.new (u8_at cursor.old) }
{
    let number = cursor.number(0, u32::from(u8::MAX))?;
    Ok(number as u8)
}
