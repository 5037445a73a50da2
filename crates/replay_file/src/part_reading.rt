ghost use Rattle.std.specs.Prelude.{◌≡◌, ◌<◌, ◌≤◌, ◌++◌, ◌∷◌, [], length, IfOk, OnOk};
ghost use Rattle.std.specs.List.{AllByRecursion, list_any};
ghost use Rattle.wire_bytes.specs.Field.{field_bytes};
ghost use Rattle.wire_bytes.specs.Read.{Reads};
ghost use Rattle.game_orders.specs.declared.limits.TheConstants.{MAX_CLIENTS, MAX_ORDERS};
ghost use Rattle.game_orders.specs.declared.entry.Entry.TheVariants.{Play};
ghost use Rattle.game_orders.specs.Entry.{is_play};
ghost use Rattle.game_orders.specs.OrderBytes.{each_order, order_bytes, orders_bytes};
ghost use Rattle.replay_file.specs.declared.part.Part.TheVariants as part;
ghost use Rattle.replay_file.specs.PartReading.{entries_after, entry_in, frame_in, mark_in};
ghost use Rattle.replay_file.specs.PartReading.{next_in, order_in, orders_after, orders_in};
ghost use Rattle.replay_file.specs.PartReading.{part_in, play_in};
ghost use Rattle.replay_file.specs.PartBytes.{entry_bytes, entries_bytes, part_bytes};
ghost use Rattle.replay_file.specs.PartKind.{entry_by, next_of, part_of, with_value};
ghost use Rattle.replay_file.specs.ReadClauses.{SpellsNext, SpellsTagged};
ghost use Rattle.replay_file.specs.PartRules.{EntryFollows, HasTagUpTo, HasTagsUpTo};
ghost use Rattle.replay_file.specs.PartRules.{StayDeparted, greatest_tag, most_frames};

use crate::limits::{FIRST_GREATEST_TAG, FIRST_MAX_FRAMES, FIRST_VERSION, GREATEST_TAG};
use crate::part_fault::PartFault;
use crate::part_kind::PartKind;
use crate::standing::Standing;
use game_orders::{Entry, Frame, MAX_FRAMES, MAX_ORDERS, Order, Orders, read_order};
use wire_bytes::Cursor;

/// Reads an order whose tag is at most the greatest of the version.
#[tactic(auto, using(crate::proofs::OrdersLemmas::first_tag), unfolding(crate::specs::PartReading::order_in))]
fn read_order_in(c: &mut Cursor<'_>, greatest: u8) -> Result<Order, PartFault>
    ensures reads { Reads (order_in greatest) c.old c.new result }
    ensures spelled { IfOk result (λ o. c.old ≡ order_bytes o ++ c.new) }
    ensures known { IfOk result (λ o. HasTagUpTo greatest o) }
{
    let mut ahead = Cursor::over(c.rest());
    let tag = ahead.read_u8()?;
    if tag > greatest {
        return Err(PartFault::Bad);
    }
    let order = read_order(c)?;
    Ok(order)
}

/// Reads so many orders, at most [`MAX_ORDERS`], one after the other, in the place of these.
#[tactic(auto, using(crate::proofs::OrdersLemmas::reading_steps))]
fn read_each(
    c: &mut Cursor<'_>,
    greatest: u8,
    count: u8,
    orders: &mut Orders,
) -> Result<(), PartFault>
    requires { count ≤ MAX_ORDERS }
    ensures reads { Reads (orders_after greatest [] count) c.old c.new
        (with_value (λ _. orders.new) result) }
    ensures spelled { OnOk result ((length orders.new ≡ count)
        × (c.old ≡ each_order orders.new ++ c.new)) }
    ensures known { OnOk result (AllByRecursion (HasTagUpTo greatest) orders.new) }
{
    orders.replace([].as_slice());
    for _ in 0..count {
        let order = read_order_in(c, greatest)?;
        orders.push(order);
    }
    Ok(())
}

/// Reads the orders of one client, in the place of these: their number, then each of them.
#[tactic(auto, unfolding(crate::specs::PartReading::orders_in, game_orders::specs::OrderBytes::orders_bytes))]
fn read_orders_in(c: &mut Cursor<'_>, greatest: u8, orders: &mut Orders) -> Result<(), PartFault>
    ensures reads { Reads (orders_in greatest) c.old c.new (with_value (λ _. orders.new) result) }
    ensures spelled { OnOk result (c.old ≡ orders_bytes orders.new ++ c.new) }
    ensures known { OnOk result (AllByRecursion (HasTagUpTo greatest) orders.new) }
{
    let count = c.read_u8()?;
    if count > MAX_ORDERS {
        return Err(PartFault::Bad);
    }
    read_each(c, greatest, count, orders)
}

/// Reads the orders of a play.
#[tactic(auto, unfolding(crate::specs::PartReading::play_in))]
fn read_play(c: &mut Cursor<'_>, greatest: u8, orders: &mut Orders) -> Result<(), PartFault>
    ensures reads { Reads (play_in greatest) c.old c.new
        (with_value (λ _. Play orders.new) result) }
    ensures spelled { OnOk result
        (field_bytes 1 1 ++ c.old ≡ entry_bytes (Play orders.new) ++ c.new) }
    ensures known { OnOk result (HasTagsUpTo greatest (Play orders.new)) }
{
    read_orders_in(c, greatest, orders)
}

/// Reads the entry of a client that has departed before, or has not. True is a play of the orders
/// that stand in the place of these, false a departure.
#[tactic(auto, unfolding(crate::specs::PartReading::entry_in))]
fn read_entry(
    c: &mut Cursor<'_>,
    greatest: u8,
    gone: bool,
    orders: &mut Orders,
) -> Result<bool, PartFault>
    ensures reads { Reads (entry_in greatest gone) c.old c.new
        (with_value (λ plays. entry_by plays orders.new) result) }
    ensures spelled { IfOk result (λ plays. c.old ≡ entry_bytes (entry_by plays orders.new) ++ c.new) }
    ensures follows { IfOk result (λ plays. EntryFollows gone (entry_by plays orders.new)) }
    ensures known { IfOk result (λ plays. HasTagsUpTo greatest (entry_by plays orders.new)) }
{
    let kind = c.read_u8()?;
    if kind == 0 {
        return Ok(false);
    }
    if kind != 1 || gone {
        return Err(PartFault::Bad);
    }
    read_play(c, greatest, orders)?;
    Ok(true)
}

/// Adds the entry of the next client: a play of these orders, or its departure.
fn push_entry(frame: &mut Frame, plays: bool, orders: &Orders)
    requires { length frame.old < MAX_CLIENTS }
    ensures { frame.new ≡ frame.old ++ entry_by plays orders.now ∷ [] }
{
    if plays {
        frame.push_play(orders.as_slice());
    } else {
        frame.push(Entry::Leave);
    }
}

/// Reads the entries of a frame, in the place of those that it has, one for each client by rising
/// number, at most [`MAX_CLIENTS`](game_orders::MAX_CLIENTS): a departure, or, where the client's
/// flag says that it has not departed before, a play of orders with tags up to `greatest`. The first
/// fault from the left is the answer: `Short` exactly where a field runs past the end, else `Bad`.
/// Then some bytes may be taken, and the frame has some of the entries.
#[tactic(auto, using(crate::proofs::EntriesLemmas::reading_steps))]
pub fn read_entries(
    c: &mut Cursor<'_>,
    greatest: u8,
    departed: &[bool],
    frame: &mut Frame,
) -> Result<(), PartFault>
    requires { length departed.now ≤ MAX_CLIENTS }
    ensures reads { Reads (entries_after greatest [] departed.now) c.old c.new
        (with_value (λ _. frame.new) result) }
    ensures spelled { OnOk result (c.old ≡ entries_bytes frame.new ++ c.new) }
    ensures departed { OnOk result (StayDeparted departed.now frame.new) }
    ensures known { OnOk result (AllByRecursion (HasTagsUpTo greatest) frame.new) }
{
    frame.clear();
    let mut orders = Orders::empty();
    for gone in departed {
        let plays = read_entry(c, greatest, *gone, &mut orders)?;
        push_entry(frame, plays, &orders);
    }
    Ok(())
}

/// True where a client plays.
#[tactic(auto, using(crate::proofs::FrameLemmas::play_steps))]
fn has_play(frame: &Frame) -> bool
    ensures { result ≡ list_any is_play frame.now }
{
    for client in 0..frame.len() {
        let Some(entry) = frame.get(client) else {
            unreachable!()
        };
        if entry.is_play() {
            return true;
        }
    }
    false
}

/// The greatest tag of an order in a version.
fn greatest_tag(version: u16) -> u8
    ensures { result ≡ greatest_tag version }
{
    if version == FIRST_VERSION {
        FIRST_GREATEST_TAG
    } else {
        GREATEST_TAG
    }
}

/// The greatest number of frames in a version.
fn most_frames(version: u16) -> u32
    ensures value { result ≡ most_frames version }
    ensures limit { result ≤ MAX_FRAMES }
{
    if version == FIRST_VERSION {
        FIRST_MAX_FRAMES
    } else {
        MAX_FRAMES
    }
}

/// Reads the entries of a frame that may follow, if there are not too many frames.
#[tactic(auto, unfolding(crate::specs::PartReading::frame_in, crate::specs::PartBytes::part_bytes))]
fn read_frame(
    c: &mut Cursor<'_>,
    version: u16,
    standing: &Standing,
    frame: &mut Frame,
) -> Result<(), PartFault>
    requires { standing.now.frames < most_frames version }
    ensures reads { Reads (frame_in (greatest_tag version) standing.now.departed) c.old c.new
        (with_value (λ _. part.Frame frame.new) result) }
    ensures spelled { OnOk result
        (SpellsTagged version standing.now 1 c.old c.new (part.Frame frame.new)) }
{
    read_entries(
        c,
        greatest_tag(version),
        standing.departed.as_slice(),
        frame,
    )?;
    if !has_play(frame) {
        return Err(PartFault::Bad);
    }
    Ok(())
}

/// Reads the hash of a mark.
#[tactic(auto, unfolding(crate::specs::PartReading::mark_in, crate::specs::PartBytes::part_bytes))]
pub(crate) fn read_mark(c: &mut Cursor<'_>) -> Result<u64, PartFault>
    ensures reads { Reads mark_in c.old c.new (with_value part.Mark result) }
    ensures spelled { IfOk result (λ hash.
        field_bytes 1 2 ++ c.old ≡ part_bytes (part.Mark hash) ++ c.new) }
{
    let hash = c.read_u64()?;
    Ok(hash)
}

/// Reads the part with this tag after parts with this standing. The entries of a frame come in the
/// place of those that this one has.
#[tactic(auto, unfolding(crate::specs::PartReading::part_in))]
fn read_part(
    c: &mut Cursor<'_>,
    version: u16,
    standing: &Standing,
    tag: u8,
    frame: &mut Frame,
) -> Result<PartKind, PartFault>
    ensures reads { Reads (part_in version standing.now tag) c.old c.new
        (with_value (λ kind. part_of kind frame.new) result) }
    ensures spelled { IfOk result (λ kind.
        SpellsTagged version standing.now tag c.old c.new (part_of kind frame.new)) }
{
    if tag == 1 && standing.frames < most_frames(version) {
        read_frame(c, version, standing, frame)?;
        return Ok(PartKind::Frame);
    }
    if tag == 2 && !standing.marked {
        let hash = read_mark(c)?;
        return Ok(PartKind::Mark(hash));
    }
    Err(PartFault::Bad)
}

/// Reads the next part after parts with this standing, its tag first. None is the end.
#[tactic(auto, unfolding(crate::specs::PartReading::next_in))]
pub(crate) fn read_next(
    c: &mut Cursor<'_>,
    version: u16,
    standing: &Standing,
    frame: &mut Frame,
) -> Result<Option<PartKind>, PartFault>
    ensures reads { Reads (next_in version standing.now) c.old c.new
        (with_value (λ next. next_of next frame.new) result) }
    ensures spelled { IfOk result (λ next.
        SpellsNext version standing.now c.old c.new (next_of next frame.new)) }
{
    let tag = c.read_u8()?;
    if tag == 0 {
        return Ok(None);
    }
    let kind = read_part(c, version, standing, tag, frame)?;
    Ok(Some(kind))
}
