ghost use Rattle.std.specs.Prelude.{◌≡◌, ◌++◌, ℕ, OnErr, IfOk};
ghost use Rattle.wire_bytes.specs.Field.{field_bytes};
ghost use Rattle.wire_bytes.specs.Read.{Reads};
ghost use Rattle.game_orders.specs.Order.{flag_number};
ghost use Rattle.game_orders.specs.declared.order.Order.TheVariants as variant;
ghost use Rattle.game_orders.specs.OrderBytes.{tag_of, fields_bytes, order_bytes};
ghost use Rattle.game_orders.specs.OrderReading.{flag_at, cell_at, way_at, attack_at, pair_at};
ghost use Rattle.game_orders.specs.OrderReading.{fields_at, order_at};

use crate::order::Order;
use crate::order_fault::OrderFault;
use wire_bytes::Cursor;
use world_units::CPos;

/// Reads a flag: 0 or 1.
#[tactic(auto, unfolding(crate::specs::OrderReading::flag_at))]
fn read_flag(c: &mut Cursor<'_>) -> Result<bool, OrderFault>
    ensures reads { Reads flag_at c.old c.new result }
    ensures spelled { IfOk result (λ flag. c.old ≡ field_bytes 1 (flag_number flag) ++ c.new) }
{
    match c.read_u8()? {
        0 => Ok(false),
        1 => Ok(true),
        _ => Err(OrderFault::BadFlag),
    }
}

/// Reads a cell: its column, then its row.
#[tactic(auto, unfolding(crate::specs::OrderReading::cell_at))]
fn read_cell(c: &mut Cursor<'_>) -> Result<CPos, OrderFault>
    ensures reads { Reads cell_at c.old c.new result }
    ensures spelled { IfOk result (λ cell. c.old ≡ (field_bytes 1 cell.x ++ field_bytes 1 cell.y)
        ++ c.new) }
{
    let x = c.read_u8()?;
    let y = c.read_u8()?;
    Ok(CPos { x, y })
}

/// Reads the fields of a Move.
#[tactic(auto, unfolding(crate::specs::OrderReading::way_at))]
fn read_move(c: &mut Cursor<'_>) -> Result<Order, OrderFault>
    ensures reads { Reads (way_at variant.Move) c.old c.new result }
    ensures spelled { IfOk result (λ o. (tag_of o ≡ 1) × (c.old ≡ fields_bytes o ++ c.new)) }
{
    let actor = c.read_u32()?;
    let cell = read_cell(c)?;
    let queued = read_flag(c)?;
    Ok(Order::Move {
        actor,
        cell,
        queued,
    })
}

/// Reads the fields of an Attack.
#[tactic(auto, unfolding(crate::specs::OrderReading::attack_at))]
fn read_attack(c: &mut Cursor<'_>) -> Result<Order, OrderFault>
    ensures reads { Reads attack_at c.old c.new result }
    ensures spelled { IfOk result (λ o. (tag_of o ≡ 2) × (c.old ≡ fields_bytes o ++ c.new)) }
{
    let actor = c.read_u32()?;
    let target = c.read_u32()?;
    let queued = read_flag(c)?;
    Ok(Order::Attack {
        actor,
        target,
        queued,
    })
}

/// Reads the fields of a Harvest.
#[tactic(auto, unfolding(crate::specs::OrderReading::way_at))]
fn read_harvest(c: &mut Cursor<'_>) -> Result<Order, OrderFault>
    ensures reads { Reads (way_at variant.Harvest) c.old c.new result }
    ensures spelled { IfOk result (λ o. (tag_of o ≡ 3) × (c.old ≡ fields_bytes o ++ c.new)) }
{
    let actor = c.read_u32()?;
    let cell = read_cell(c)?;
    let queued = read_flag(c)?;
    Ok(Order::Harvest {
        actor,
        cell,
        queued,
    })
}

/// Reads the fields of a Produce.
#[tactic(auto, unfolding(crate::specs::OrderReading::pair_at))]
fn read_produce(c: &mut Cursor<'_>) -> Result<Order, OrderFault>
    ensures reads { Reads (pair_at variant.Produce 4 2) c.old c.new result }
    ensures spelled { IfOk result (λ o. (tag_of o ≡ 5) × (c.old ≡ fields_bytes o ++ c.new)) }
{
    let actor = c.read_u32()?;
    let kind = c.read_u16()?;
    Ok(Order::Produce { actor, kind })
}

/// Reads the fields of a Donate.
#[tactic(auto, unfolding(crate::specs::OrderReading::pair_at))]
fn read_donate(c: &mut Cursor<'_>) -> Result<Order, OrderFault>
    ensures reads { Reads (pair_at variant.Donate 1 4) c.old c.new result }
    ensures spelled { IfOk result (λ o. (tag_of o ≡ 7) × (c.old ≡ fields_bytes o ++ c.new)) }
{
    let to = c.read_u8()?;
    let amount = c.read_u32()?;
    Ok(Order::Donate { to, amount })
}

/// Reads the fields of the order with this tag.
#[tactic(auto, unfolding(crate::specs::OrderReading::fields_at, crate::specs::OrderReading::single_at))]
fn read_fields(c: &mut Cursor<'_>, tag: u8) -> Result<Order, OrderFault>
    ensures reads { Reads (fields_at tag) c.old c.new result }
    ensures spelled { IfOk result (λ o. (tag_of o ≡ tag) × (c.old ≡ fields_bytes o ++ c.new)) }
{
    match tag {
        1 => read_move(c),
        2 => read_attack(c),
        3 => read_harvest(c),
        4 => {
            let actor = c.read_u32()?;
            Ok(Order::Stop { actor })
        }
        5 => read_produce(c),
        6 => {
            let actor = c.read_u32()?;
            Ok(Order::Cancel { actor })
        }
        7 => read_donate(c),
        8 => {
            let ticks = c.read_u8()?;
            Ok(Order::Pace { ticks })
        }
        _ => Err(OrderFault::BadTag),
    }
}

/// Reads an order, its tag first.
#[tactic(auto, unfolding(crate::specs::OrderReading::order_at, crate::specs::OrderBytes::order_bytes))]
fn read_tagged(c: &mut Cursor<'_>) -> Result<Order, OrderFault>
    ensures reads { Reads order_at c.old c.new result }
    ensures spelled { IfOk result (λ o. c.old ≡ order_bytes o ++ c.new) }
{
    let tag = c.read_u8()?;
    read_fields(c, tag)
}

/// Reads the next order: its tag, 1 to 8 in the order of [`Order`]'s variants, then its fields,
/// numbers with the lowest byte first.
///
/// The first fault from the left is the answer: `Short` exactly where the tag or a field runs past
/// the end, `BadTag` exactly at another tag, `BadFlag` exactly at a flag that is neither 0 nor 1.
/// Then the cursor stays.
pub fn read_order(c: &mut Cursor<'_>) -> Result<Order, OrderFault>
    ensures reads { Reads order_at c.old c.new result }
    ensures spelled { IfOk result (λ o. c.old ≡ order_bytes o ++ c.new) }
    ensures stays { OnErr result (c.new ≡ c.old) }
{
    let start = c.rest();
    let read = read_tagged(c);
    if read.is_err() {
        *c = Cursor::over(start);
    }
    read
}
