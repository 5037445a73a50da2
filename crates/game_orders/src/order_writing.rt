ghost use Rattle.std.specs.Prelude.{◌≡◌, ◌<◌, ◌++◌, OnOk, OnErr};
ghost use Rattle.wire_bytes.specs.Field.{field_bytes};
ghost use Rattle.wire_bytes.specs.Write.{Extends};
ghost use Rattle.game_orders.specs.Order.{flag_number};
ghost use Rattle.game_orders.specs.OrderBytes.{tag_of, way_bytes, fields_bytes, order_bytes};
ghost use Rattle.game_orders.specs.OrderBytes.{FitsOrder};

use crate::order::Order;
use base::NoMemory;
use wire_bytes::{write_u8, write_u16, write_u32};
use world_units::CPos;

/// The number of an order's variant, from 1.
fn tag(o: &Order) -> u8
    ensures { result ≡ tag_of o.now }
{
    match o {
        Order::Move { .. } => 1,
        Order::Attack { .. } => 2,
        Order::Harvest { .. } => 3,
        Order::Stop { .. } => 4,
        Order::Produce { .. } => 5,
        Order::Cancel { .. } => 6,
        Order::Donate { .. } => 7,
        Order::Pace { .. } => 8,
    }
}

/// Appends a flag: 0 or 1.
fn append_flag(out: &mut Vec<u8>, flag: bool) -> Result<(), NoMemory>
    ensures ok { OnOk result (out.new.items ≡ out.old.items ++ field_bytes 1 (flag_number flag)) }
    ensures err { OnErr result (out.new.items ≡ out.old.items) }
{
    write_u8(out, u8::from(flag))
}

/// Appends an actor's number, a cell and a flag.
#[tactic(auto, using(wire_bytes::proofs::WriteLemmas::written))]
fn append_way(out: &mut Vec<u8>, actor: u32, cell: CPos, queued: bool) -> Result<(), NoMemory>
    ensures ok { OnOk result (out.new.items ≡ out.old.items ++ way_bytes actor cell queued) }
    ensures err { OnErr result (Extends out.old.items out.new.items) }
{
    write_u32(out, actor)?;
    write_u8(out, cell.x)?;
    write_u8(out, cell.y)?;
    append_flag(out, queued)
}

/// Appends an order's fields.
#[tactic(auto, using(wire_bytes::proofs::WriteLemmas::written))]
fn append_fields(out: &mut Vec<u8>, o: &Order) -> Result<(), NoMemory>
    ensures ok { OnOk result (out.new.items ≡ out.old.items ++ fields_bytes o.now) }
    ensures err { OnErr result (Extends out.old.items out.new.items) }
{
    match *o {
        Order::Move {
            actor,
            cell,
            queued,
        }
        | Order::Harvest {
            actor,
            cell,
            queued,
        } => append_way(out, actor, cell, queued),
        Order::Attack {
            actor,
            target,
            queued,
        } => {
            write_u32(out, actor)?;
            write_u32(out, target)?;
            append_flag(out, queued)
        }
        Order::Stop { actor } | Order::Cancel { actor } => write_u32(out, actor),
        Order::Produce { actor, kind } => {
            write_u32(out, actor)?;
            write_u16(out, kind)
        }
        Order::Donate { to, amount } => {
            write_u8(out, to)?;
            write_u32(out, amount)
        }
        Order::Pace { ticks } => write_u8(out, ticks),
    }
}

/// Appends an order's tag and its fields.
#[tactic(auto, using(wire_bytes::proofs::WriteLemmas::written), unfolding(crate::specs::OrderBytes::order_bytes))]
fn append_order(out: &mut Vec<u8>, o: &Order) -> Result<(), NoMemory>
    ensures ok { OnOk result (out.new.items ≡ out.old.items ++ order_bytes o.now) }
    ensures err { OnErr result (Extends out.old.items out.new.items) }
{
    write_u8(out, tag(o))?;
    append_fields(out, o)
}

/// Appends the one spelling of an order, which [`crate::read_order`] reads. Without memory `out`
/// stays as it was.
pub fn write_order(out: &mut Vec<u8>, o: &Order) -> Result<(), NoMemory>
    ensures ok { OnOk result (out.new.items ≡ out.old.items ++ order_bytes o.now) }
    ensures err { OnErr result (out.new.items ≡ out.old.items) }
{
    let start = out.len();
    let written = append_order(out, o);
    if written.is_err() {
        out.truncate(start);
    }
    written
}

/// A cell has bytes as its column and its row. The call does nothing.
fn cell_fits(cell: CPos)
    ensures { (cell.x < 256) × (cell.y < 256) }
{
    let _x = cell.x;
    let _y = cell.y;
}

/// An order that code holds has numbers that fit their fields. The call does nothing.
pub fn order_fits(o: &Order)
    ensures { FitsOrder o.now }
{
    // each number is read so that the proof has the range of its type
    match *o {
        Order::Move { actor, cell, .. } | Order::Harvest { actor, cell, .. } => {
            let _actor = actor;
            cell_fits(cell);
        }
        Order::Attack { actor, target, .. } => {
            let _actor = actor;
            let _target = target;
        }
        Order::Stop { actor } | Order::Cancel { actor } => {
            let _actor = actor;
        }
        Order::Produce { actor, kind } => {
            let _actor = actor;
            let _kind = kind;
        }
        Order::Donate { to, amount } => {
            let _to = to;
            let _amount = amount;
        }
        Order::Pace { ticks } => {
            let _ticks = ticks;
        }
    }
}
