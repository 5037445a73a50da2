ghost use Rattle.std.specs.Prelude.{◌≡◌, ◌++◌, IfOk};
ghost use Rattle.wire_bytes.specs.Field.{field_bytes};
ghost use Rattle.wire_bytes.specs.Read.{Reads};
ghost use Rattle.order_packets.specs.PacketBytes.{up_payload};
ghost use Rattle.order_packets.specs.PacketReading.{hello_at, sealed_at, sync_at, up_fields, up_at};

use crate::feed_fault::FeedFault;
use crate::packet::Packet;
use crate::up::Up;
use game_orders::read_orders;
use wire_bytes::Cursor;

/// Reads the fields of a Hello.
#[tactic(auto, unfolding(crate::specs::PacketReading::hello_at, crate::specs::PacketBytes::up_payload))]
fn read_hello(c: &mut Cursor<'_>) -> Result<Up, FeedFault>
    ensures reads { Reads hello_at c.old c.new result }
    ensures spelled { IfOk result (λ packet. field_bytes 1 1 ++ c.old
        ≡ up_payload packet ++ c.new) }
{
    let version = c.read_u16()?;
    let rules = c.read_u64()?;
    Ok(Up::Hello { version, rules })
}

/// Reads the fields of an Orders.
#[tactic(auto, unfolding(crate::specs::PacketReading::sealed_at, crate::specs::PacketBytes::up_payload))]
fn read_sealed(c: &mut Cursor<'_>) -> Result<Up, FeedFault>
    ensures reads { Reads sealed_at c.old c.new result }
    ensures spelled { IfOk result (λ packet. field_bytes 1 2 ++ c.old
        ≡ up_payload packet ++ c.new) }
{
    let frame = c.read_u32()?;
    let orders = read_orders(c)?;
    Ok(Up::Orders { frame, orders })
}

/// Reads the fields of a Sync.
#[tactic(auto, unfolding(crate::specs::PacketReading::sync_at, crate::specs::PacketBytes::up_payload))]
fn read_sync(c: &mut Cursor<'_>) -> Result<Up, FeedFault>
    ensures reads { Reads sync_at c.old c.new result }
    ensures spelled { IfOk result (λ packet. field_bytes 1 3 ++ c.old
        ≡ up_payload packet ++ c.new) }
{
    let frame = c.read_u32()?;
    let hash = c.read_u64()?;
    Ok(Up::Sync { frame, hash })
}

/// Reads the fields of the packet with this tag.
#[tactic(auto, unfolding(crate::specs::PacketReading::up_fields, crate::specs::PacketBytes::up_payload))]
fn read_fields(c: &mut Cursor<'_>, tag: u8) -> Result<Up, FeedFault>
    ensures reads { Reads (up_fields tag) c.old c.new result }
    ensures spelled { IfOk result (λ packet. field_bytes 1 tag ++ c.old
        ≡ up_payload packet ++ c.new) }
{
    match tag {
        1 => read_hello(c),
        2 => read_sealed(c),
        3 => read_sync(c),
        4 => Ok(Up::Bye),
        _ => Err(FeedFault::BadTag),
    }
}

impl Packet for Up {
    ghost use Rattle.order_packets.specs.PacketBytes.{up_payload};
    ghost use Rattle.order_packets.specs.PacketReading.{up_at};

    ghost payload = { up_payload };

    ghost at = { up_at };

    #[tactic(auto, unfolding(crate::specs::PacketReading::up_at))]
    fn read(c: &mut Cursor<'_>) -> Result<Self, FeedFault> {
        let tag = c.read_u8()?;
        read_fields(c, tag)
    }
}
