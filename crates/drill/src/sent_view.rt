ghost use Rattle.std.specs.Prelude.{◌≡◌};
ghost use Rattle.drill.specs.PacketView.{packet_of};

use crate::packet_view::PacketView;
use crate::sent::Sent;
use std::marker::Model;

/// A packet that was sent up, its orders lent by the list of the events: in much less room than
/// [`Sent`], where orders have room for the most that there may be.
#[derive(Drop)]
pub(crate) struct SentView<'a> {
    client: u8,
    packet: PacketView<'a>,
}

impl<'a> Model for SentView<'a> {
    ghost use Rattle.drill.specs.declared.sent.Sent.{Sent};
    ghost use Rattle.drill.specs.PacketView.{packet_of};

    ghost Value = { Sent };

    ghost view = { λ sent. record { client = sent.client; packet = packet_of sent.packet } };
}

impl<'a> SentView<'a> {
    /// This packet of this client.
    pub(crate) fn of(client: u8, packet: PacketView<'a>) -> SentView<'a>
        ensures { result ≡ record { client = client; packet = packet_of packet.entry } }
    {
        SentView { client, packet }
    }

    /// The same, its orders held apart from the list.
    pub(crate) fn sent(&self) -> Sent
        ensures { result ≡ self.now }
    {
        Sent {
            client: self.client,
            packet: self.packet.packet(),
        }
    }
}
