ghost use Rattle.std.specs.Prelude.{◌≡◌, ◌++◌, IfOk};
ghost use Rattle.wire_bytes.specs.Field.{field_bytes};
ghost use Rattle.wire_bytes.specs.Read.{Reads};
ghost use Rattle.order_packets.specs.PacketBytes.{down_payload};
ghost use Rattle.order_packets.specs.PacketReading.{welcome_at, refused_at, play_at, leave_at};
ghost use Rattle.order_packets.specs.PacketReading.{down_fields, down_at};

use crate::down::Down;
use crate::feed_fault::FeedFault;
use crate::packet::Packet;
use game_orders::{Entry, read_orders};
use wire_bytes::Cursor;

/// Reads the fields of a Welcome.
#[tactic(auto, unfolding(crate::specs::PacketReading::welcome_at, crate::specs::PacketBytes::down_payload))]
fn read_welcome(c: &mut Cursor<'_>) -> Result<Down, FeedFault>
    ensures reads { Reads welcome_at c.old c.new result }
    ensures spelled { IfOk result (λ packet. field_bytes 1 17 ++ c.old
        ≡ down_payload packet ++ c.new) }
{
    let client = c.read_u8()?;
    let clients = c.read_u8()?;
    let lag = c.read_u8()?;
    let seed = c.read_u32()?;
    Ok(Down::Welcome {
        client,
        clients,
        lag,
        seed,
    })
}

/// Reads the field of a Refused.
#[tactic(auto, unfolding(crate::specs::PacketReading::refused_at, crate::specs::PacketBytes::down_payload))]
fn read_refused(c: &mut Cursor<'_>) -> Result<Down, FeedFault>
    ensures reads { Reads refused_at c.old c.new result }
    ensures spelled { IfOk result (λ packet. field_bytes 1 18 ++ c.old
        ≡ down_payload packet ++ c.new) }
{
    let code = c.read_u8()?;
    Ok(Down::Refused { code })
}

/// Reads the fields of an Entry with a play.
#[tactic(auto, unfolding(crate::specs::PacketReading::play_at, crate::specs::PacketBytes::down_payload))]
fn read_play(c: &mut Cursor<'_>) -> Result<Down, FeedFault>
    ensures reads { Reads play_at c.old c.new result }
    ensures spelled { IfOk result (λ packet. field_bytes 1 19 ++ c.old
        ≡ down_payload packet ++ c.new) }
{
    let client = c.read_u8()?;
    let frame = c.read_u32()?;
    let orders = read_orders(c)?;
    Ok(Down::Entry {
        client,
        frame,
        entry: Entry::Play(orders),
    })
}

/// Reads the fields of an Entry with a departure.
#[tactic(auto, unfolding(crate::specs::PacketReading::leave_at, crate::specs::PacketBytes::down_payload))]
fn read_leave(c: &mut Cursor<'_>) -> Result<Down, FeedFault>
    ensures reads { Reads leave_at c.old c.new result }
    ensures spelled { IfOk result (λ packet. field_bytes 1 20 ++ c.old
        ≡ down_payload packet ++ c.new) }
{
    let client = c.read_u8()?;
    let frame = c.read_u32()?;
    Ok(Down::Entry {
        client,
        frame,
        entry: Entry::Leave,
    })
}

/// Reads the fields of the packet with this tag.
#[tactic(auto, unfolding(crate::specs::PacketReading::down_fields))]
fn read_fields(c: &mut Cursor<'_>, tag: u8) -> Result<Down, FeedFault>
    ensures reads { Reads (down_fields tag) c.old c.new result }
    ensures spelled { IfOk result (λ packet. field_bytes 1 tag ++ c.old
        ≡ down_payload packet ++ c.new) }
{
    match tag {
        17 => read_welcome(c),
        18 => read_refused(c),
        19 => read_play(c),
        20 => read_leave(c),
        _ => Err(FeedFault::BadTag),
    }
}

impl Packet for Down {
    ghost use Rattle.order_packets.specs.PacketBytes.{down_payload};
    ghost use Rattle.order_packets.specs.PacketReading.{down_at};

    ghost payload = { down_payload };

    ghost at = { down_at };

    #[tactic(auto, unfolding(crate::specs::PacketReading::down_at))]
    fn read(c: &mut Cursor<'_>) -> Result<Self, FeedFault> {
        let tag = c.read_u8()?;
        read_fields(c, tag)
    }
}
