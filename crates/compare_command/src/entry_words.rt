//! The words of entries: orders as a drill writes them, with a colon for each space.
ghost use Rattle.std.specs.Prelude.{◌≡◌, ◌++◌, string_bytes, OnOk};
ghost use Rattle.std.specs.List.{flat_map};
ghost use Rattle.compare_command.specs.Lines.{both, entry_word, orders_word};
ghost use Rattle.compare_command.specs.JoinedWords.{later_order_word, number_word, order_word};
ghost use Rattle.compare_command.specs.JoinedWords.{place_word};
ghost use Rattle.drill_words.specs.Text.{queued_word};

use crate::joined_words::{add_number, add_place};
use base::NoMemory;
use game_orders::{Entry, Order};
use std::fmt::Write;
use world_units::CPos;

/// Adds two entries.
pub(crate) fn add_entries(text: &mut String, a: &Entry, b: &Entry) -> Result<(), NoMemory>
    ensures { OnOk result (string_bytes text.new
        ≡ string_bytes text.old ++ both (entry_word a.now) (entry_word b.now)) }
{
    add_entry(text, a)?;
    write!(text, " ")?;
    add_entry(text, b)
}

/// Adds what a client did in a frame.
fn add_entry(text: &mut String, entry: &Entry) -> Result<(), NoMemory>
    ensures { OnOk result
        (string_bytes text.new ≡ string_bytes text.old ++ entry_word entry.now) }
{
    match entry {
        Entry::Leave => write!(text, "leave"),
        Entry::Play(orders) => add_orders(text, orders.as_slice()),
    }
}

/// Adds orders, with a semicolon between them.
#[tactic(auto, using(crate::proofs::WordLemmas::orders_cons))]
fn add_orders(text: &mut String, orders: &[Order]) -> Result<(), NoMemory>
    ensures { OnOk result
        (string_bytes text.new ≡ string_bytes text.old ++ orders_word orders.now) }
{
    let Some((order, more)) = orders.split_first() else {
        return write!(text, "-");
    };
    add_all_orders(text, order, more)
}

/// Adds an order and those after it.
fn add_all_orders(text: &mut String, order: &Order, more: &[Order]) -> Result<(), NoMemory>
    ensures { OnOk result (string_bytes text.new ≡ string_bytes text.old
        ++ (order_word order.now ++ flat_map later_order_word more.now)) }
{
    add_order(text, order)?;
    add_more_orders(text, more)
}

/// Adds each order after a semicolon between colons.
fn add_more_orders(text: &mut String, orders: &[Order]) -> Result<(), NoMemory>
    ensures { OnOk result (string_bytes text.new
        ≡ string_bytes text.old ++ flat_map later_order_word orders.now) }
{
    for order in orders {
        write!(text, ":;:")?;
        add_order(text, order)?;
    }
    Ok(())
}

/// Adds an order.
#[tactic(auto, using(crate::proofs::WordLemmas::order_steps))]
fn add_order(text: &mut String, order: &Order) -> Result<(), NoMemory>
    ensures { OnOk result
        (string_bytes text.new ≡ string_bytes text.old ++ order_word order.now) }
{
    match order {
        Order::Move {
            actor,
            cell,
            queued,
        } => add_order_to(text, "move", *queued, *actor, *cell),
        Order::Attack {
            actor,
            target,
            queued,
        } => add_order_at(text, "attack", *queued, *actor, *target),
        Order::Harvest {
            actor,
            cell,
            queued,
        } => add_order_to(text, "harvest", *queued, *actor, *cell),
        Order::Stop { actor } => add_order_of(text, "stop", *actor),
        Order::Produce { actor, kind } => {
            add_order_with(text, "produce", *actor, u32::from(*kind))
        }
        Order::Cancel { actor } => add_order_of(text, "cancel", *actor),
        Order::Donate { to, amount } => { add_order_with(text, "donate", u32::from(*to), *amount) }
        Order::Pace { ticks } => add_order_of(text, "pace", u32::from(*ticks)),
    }
}

/// Adds an order of this word to go to a cell.
fn add_order_to(
    text: &mut String,
    word: &str,
    queued: bool,
    actor: u32,
    cell: CPos,
) -> Result<(), NoMemory>
    ensures { OnOk result (string_bytes text.new ≡ string_bytes text.old
        ++ (queued_word word.now queued ++ (number_word actor ++ place_word cell))) }
{
    add_queued(text, word, queued)?;
    add_number(text, actor)?;
    add_place(text, cell)
}

/// Adds an order of this word on another actor.
fn add_order_at(
    text: &mut String,
    word: &str,
    queued: bool,
    actor: u32,
    target: u32,
) -> Result<(), NoMemory>
    ensures { OnOk result (string_bytes text.new ≡ string_bytes text.old
        ++ (queued_word word.now queued ++ (number_word actor ++ number_word target))) }
{
    add_queued(text, word, queued)?;
    add_number(text, actor)?;
    add_number(text, target)
}

/// Adds an order's word and its two numbers.
fn add_order_with(text: &mut String, word: &str, first: u32, second: u32) -> Result<(), NoMemory>
    ensures { OnOk result (string_bytes text.new ≡ string_bytes text.old
        ++ ((word.now ++ number_word first) ++ number_word second)) }
{
    add_order_of(text, word, first)?;
    add_number(text, second)
}

/// Adds an order's first word and its first number.
fn add_order_of(text: &mut String, word: &str, number: u32) -> Result<(), NoMemory>
    ensures { OnOk result (string_bytes text.new
        ≡ string_bytes text.old ++ (word.now ++ number_word number)) }
{
    text.push_str(word)?;
    add_number(text, number)
}

/// Adds an order's first word, with `+` where it is queued.
fn add_queued(text: &mut String, word: &str, queued: bool) -> Result<(), NoMemory>
    ensures { OnOk result
        (string_bytes text.new ≡ string_bytes text.old ++ queued_word word.now queued) }
{
    text.push_str(word)?;
    if queued { write!(text, "+") } else { Ok(()) }
}
